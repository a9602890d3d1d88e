//! A store that shuts itself behind an answer.
#![tactic(auto, unfolding(sqlite_trees::specs::View::doubt))]

ghost use Rattle.std.specs.Prelude.{◌≡◌, [], Some, true, false, refl, IsTrue};
ghost use Rattle.std.proofs.Common.{sym, true≢false};
ghost use Rattle.sqlite_trees.specs.Tree.{no_trees};
ghost use Rattle.sqlite_trees.specs.View.{View};
ghost use Rattle.sqlite_trees.specs.declared.store.Shape.TheVariants.{Absent};

use sqlite::Connection;
use sqlite_trees::error::StoreError;
use sqlite_trees::schema::Object;
use sqlite_trees::store::{Alter, Direction, Shape, Store};
use sqlite_value::row::Row;
use std::alloc::{AllocError, Global};

/// A store without tables that takes this many savepoints, and nothing else. The last of them shuts it, though it is answered as done.
/// Contracts see a store whose disk has returned what was never written, of which no clause says anything.
#[derive(Drop)]
pub struct Shutting {
    savepoints: u64,
}

/// A connection over a store that the last of this many savepoints shuts.
pub fn shutting_behind(alloc: Global, savepoints: u64) -> Option<Connection<Shutting>> {
    Connection::over(alloc, Shutting { savepoints }).ok()
}

impl Store for Shutting {
    ghost view = { λ _. record {
      trees = no_trees;
      committed = no_trees;
      cursors = λ _. Some [];
      shape = λ _. Absent;
      reals = λ _. 0;
      committed_shape = λ _. Absent;
      committed_reals = λ _. 0;
      marks = [];
      is_numbered = true;
      has_sums = false;
      is_open = false;
      is_broken = true;
      is_clean = false;
    } };

    ghost faults = { λ _. 0 };

    ghost recovers = { λ _ _. Unit {0} };

    ghost is_shielded = { λ _. Unit {0} };

    ghost is_step = { λ _ _ _. Unit {0} };

    ghost ordered = { λ _ sound. absurd (true≢false sound) };

    ghost shut_if_dirty = { λ _ _. refl };

    ghost empty_if_dirty = { λ _ _. (refl, refl) };

    ghost broken_if_shut = { λ _ _. refl };

    ghost settled = { λ _ _ is_open _. absurd (true≢false (sym is_open)) };

    ghost stays = { λ _ is_open. absurd (true≢false (sym is_open)) };

    ghost survives = { λ _ _. ∣ (no_trees, tt) ∣₁ };

    ghost unaltered = { λ _ sound _. absurd (true≢false sound) };

    fn is_broken(&self) -> bool {
        self.savepoints == 0
    }

    fn shape(&self, _tree: u32) -> Shape {
        Shape::Absent
    }

    fn tree_count(&self) -> u64 {
        0
    }

    fn reals(&self, _tree: u32) -> u64 {
        0
    }

    fn seek(
        &mut self,
        _cursor: u16,
        _tree: u32,
        _key: &Row,
        _direction: Direction,
    ) -> Result<(), StoreError> {
        Err(StoreError::Broken)
    }

    fn next(&mut self, _cursor: u16, _row: &mut Row) -> Result<bool, StoreError> {
        Err(StoreError::Broken)
    }

    fn get(&mut self, _table: u32, _id: i64, _row: &mut Row) -> Result<bool, StoreError> {
        Err(StoreError::Broken)
    }

    fn put(&mut self, _table: u32, _row: &Row) -> Result<(), StoreError> {
        Err(StoreError::Broken)
    }

    fn delete(&mut self, _table: u32, _id: i64) -> Result<(), StoreError> {
        Err(StoreError::Broken)
    }

    fn insert(&mut self, _index: u32, _entry: &Row) -> Result<(), StoreError> {
        Err(StoreError::Broken)
    }

    fn remove(&mut self, _index: u32, _entry: &Row) -> Result<(), StoreError> {
        Err(StoreError::Broken)
    }

    fn commit(&mut self) -> Result<(), StoreError> {
        Err(StoreError::Broken)
    }

    fn rollback(&mut self) {}

    fn savepoint(&mut self) -> Result<(), StoreError> {
        self.savepoints = self.savepoints.saturating_sub(1);
        Ok(())
    }

    fn release(&mut self) -> Result<(), StoreError> {
        Err(StoreError::Broken)
    }

    fn rollback_to(&mut self) -> Result<(), StoreError> {
        Err(StoreError::Broken)
    }
}

impl Alter for Shutting {
    ghost listed = { λ _ sound. absurd (true≢false sound) };

    fn objects(&self, alloc: Global) -> Result<Vec<Row>, AllocError> {
        Ok(Vec::new(alloc))
    }

    fn create(&mut self, _tree: u32, _object: &Object<'_>) -> Result<(), StoreError> {
        Err(StoreError::Broken)
    }

    fn destroy(&mut self, _tree: u32) -> Result<(), StoreError> {
        Err(StoreError::Broken)
    }

    fn relist(&mut self, _changes: &[(u32, Object<'_>)]) -> Result<(), StoreError> {
        Err(StoreError::Broken)
    }

    fn version(&self) -> u32 {
        0
    }

    fn set_version(&mut self, _version: u32) -> Result<(), StoreError> {
        Err(StoreError::Broken)
    }
}
