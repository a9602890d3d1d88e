//! The resources of a book, by their paths. The definition is `place_of_path` (`specs/Routes.antt`).
//! What clients send: `tests/exchanges.py`. Wrong bodies: `must-fail-more/`.
ghost use Rattle.std.specs.Prelude.{[], ◌≡◌, IfOk, option_map};
ghost use Rattle.matchit.specs.Params.{AllText};
ghost use Rattle.http_message.specs.Routes as spec;

use matchit::{InsertError, Params, Router};
use std::alloc::Global;
use values::MemoryFault;

/// What a path names, with the ids, the number or the days in it.
#[derive(Clone, Copy)]
pub enum Resource<'p> {
    /// The page of the desk.
    Desk,
    /// Commands.
    Requests,
    /// Commands that are only checked.
    Checks,
    /// Lines of commands.
    Lines,
    /// Lines of commands that are only checked.
    LineChecks,
    /// The import of this number.
    Import(&'p str),
    /// The roster of this member.
    Crew(&'p str),
    /// This pairing.
    Pairing(&'p str),
    /// The exceedances.
    Exceedances,
    /// What is nearest to each limit of this member's duties.
    Limits(&'p str),
    /// The same with this pairing.
    LimitsWith(&'p str, &'p str),
    /// The members.
    Members,
    /// The pairings.
    Pairings,
    /// The pairings with a free seat.
    OpenPairings,
    /// The board from this day to that.
    Board(&'p str, &'p str),
    /// The request of this number.
    Request(&'p str),
    /// How many requests are kept.
    Count,
}

/// The routes to them.
#[derive(Clone, Copy, PartialEq, Eq)]
pub enum Route {
    /// To the page of the desk.
    Desk,
    /// To commands.
    Requests,
    /// To commands that are only checked.
    Checks,
    /// To lines of commands.
    Lines,
    /// To lines of commands that are only checked.
    LineChecks,
    /// To imports.
    Import,
    /// To requests.
    Request,
    /// To how many requests are kept.
    Count,
    /// To the board.
    Board,
    /// To rosters.
    Crew,
    /// To pairings.
    Pairing,
    /// To the exceedances.
    Exceedances,
    /// To what is nearest to each limit of a member's duties.
    Limits,
    /// To the same with a pairing.
    LimitsWith,
    /// To the members.
    Members,
    /// To the pairings.
    Pairings,
    /// To the pairings with a free seat.
    OpenPairings,
}

/// Finds what a path names.
pub fn resource_of(alloc: Global, path: &str) -> Result<Option<Resource<'_>>, MemoryFault>
    ensures { IfOk result (λ it. option_map spec.path_resource it ≡ spec.place_of_path path.now) }
{
    let Ok(router) = router(alloc) else {
        return Err(MemoryFault);
    };
    let Ok(found) = router.at(path) else {
        return Ok(None);
    };
    Ok(resource_at(*found.value, &found.params))
}

/// Names a resource by what its route took from a path.
fn resource_at<'p>(route: Route, params: &Params<'_, 'p>) -> Option<Resource<'p>>
    ensures { AllText (spec.taken params.now)
        → option_map spec.path_resource result ≡ spec.place_by route (spec.taken params.now) }
{
    Some(match route {
        Route::Desk => Resource::Desk,
        Route::Requests => Resource::Requests,
        Route::Checks => Resource::Checks,
        Route::Lines => Resource::Lines,
        Route::LineChecks => Resource::LineChecks,
        Route::Import => Resource::Import(params.get("number")?),
        Route::Crew => Resource::Crew(params.get("id")?),
        Route::Pairing => Resource::Pairing(params.get("id")?),
        Route::Exceedances => Resource::Exceedances,
        Route::Limits => Resource::Limits(params.get("crew")?),
        Route::LimitsWith => Resource::LimitsWith(params.get("crew")?, params.get("pairing")?),
        Route::Members => Resource::Members,
        Route::Pairings => Resource::Pairings,
        Route::OpenPairings => Resource::OpenPairings,
        Route::Board => Resource::Board(params.get("from")?, params.get("to")?),
        Route::Request => Resource::Request(params.get("number")?),
        Route::Count => Resource::Count,
    })
}

/// Makes the table of the resources.
fn router(alloc: Global) -> Result<Router<Route>, InsertError>
    ensures { IfOk result (λ router. router ≡ spec.route_table) }
{
    let mut router = Router::new(alloc);
    add_routes(&mut router)?;
    Ok(router)
}

/// Adds the resources to an empty table.
// (which is lent: one that each refused line lets go takes the prover more than ten times as long)
fn add_routes(router: &mut Router<Route>) -> Result<(), InsertError>
    requires { router.now ≡ [] }
    ensures { IfOk result (λ _. router.new ≡ spec.route_table) }
{
    router.insert("/requests", Route::Requests)?;
    router.insert("/checks", Route::Checks)?;
    router.insert("/imports/{number}", Route::Import)?;
    router.insert("/crew/{id}", Route::Crew)?;
    router.insert("/pairings/{id}", Route::Pairing)?;
    router.insert("/exceedances", Route::Exceedances)?;
    router.insert("/reports/limits/{crew}", Route::Limits)?;
    router.insert("/reports/limits/{crew}/{pairing}", Route::LimitsWith)?;
    router.insert("/reports/members", Route::Members)?;
    router.insert("/reports/pairings", Route::Pairings)?;
    router.insert("/reports/open", Route::OpenPairings)?;
    router.insert("/", Route::Desk)?;
    router.insert("/requests/{number}", Route::Request)?;
    router.insert("/lines", Route::Lines)?;
    router.insert("/lines/checks", Route::LineChecks)?;
    router.insert("/board/{from}/{to}", Route::Board)?;
    router.insert("/count", Route::Count)?;
    Ok(())
}
