//! What holds of the reports of each roster as JSON. Each of these functions does nothing; its clause is a law. The other
//! six reports are functions of the roster.
ghost use Rattle.report_json.specs.Laws.{EachHasExceedancesJson, EachHasLimitsJson, HasOneExceedancesJson, HasOneLimitsJson};

/// The exceedances of a sound roster have a text.
pub fn each_exceedances_json()
    ensures { EachHasExceedancesJson }
{}

/// The exceedances have one text at most.
pub fn one_exceedances_json()
    ensures { HasOneExceedancesJson }
{}

/// The limits of a member who is there have a text, with each pairing that is there and without one.
pub fn each_limits_json()
    ensures { EachHasLimitsJson }
{}

/// The limits of a member have one text at most.
pub fn one_limits_json()
    ensures { HasOneLimitsJson }
{}
