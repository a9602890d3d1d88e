//! What holds of the texts of each roster. Each of these functions does nothing; its clause is a law.
ghost use Rattle.report.specs.Laws.{EachHasBoardText, EachHasExceedanceText, EachHasMembersText, EachHasPairingsText, EachHasPeriod, EachHasRoster, HasOneBoardText, HasOneExceedanceText, HasOneMembersText, HasOnePairingsText, HasOneRoster};

/// A member who is there has a roster.
pub fn each_roster()
    ensures { EachHasRoster }
{}

/// A member has one roster at most.
pub fn one_roster()
    ensures { HasOneRoster }
{}

/// The exceedances of a sound roster have a text.
pub fn each_exceedance_text()
    ensures { EachHasExceedanceText }
{}

/// The exceedances have one text at most.
pub fn one_exceedance_text()
    ensures { HasOneExceedanceText }
{}

/// The members have a text.
pub fn each_members_text()
    ensures { EachHasMembersText }
{}

/// The members have one text at most.
pub fn one_members_text()
    ensures { HasOneMembersText }
{}

/// The pairings have a text, and so have those with a free seat.
pub fn each_pairings_text()
    ensures { EachHasPairingsText }
{}

/// The pairings have one text at most, and so have those with a free seat.
pub fn one_pairings_text()
    ensures { HasOnePairingsText }
{}

/// The board of each days has a text.
pub fn each_board_text()
    ensures { EachHasBoardText }
{}

/// The board of some days has one text at most.
pub fn one_board_text()
    ensures { HasOneBoardText }
{}

/// Each pairing of a sound roster has a period, so that its line has the times of periods.
pub fn each_has_period()
    ensures { EachHasPeriod }
{}
