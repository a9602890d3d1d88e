//! Tables A and B of Part 117, in minutes.
//! At the first and the last minute of each row: `tests/judgement.py`. Wrong bodies: `must-fail/` and `must-fail-more/`.
ghost use Rattle.std.specs.Prelude.{◌≡◌, ◌<◌};
ghost use Rattle.limits.specs.Tables.{table_a as minutes_a, table_b as minutes_b, row_of};

/// Reads in Table A the flight time in minutes that it gives for a flight duty period (117.11(a)(1)), by the acclimated
/// minute of the day of its report. A start of 1,440 or more reads the last row.
pub fn table_a(start: u16) -> u32
    ensures { result ≡ minutes_a start }
{
    match start {
        300..=1_199 => 540,
        _ => 480,
    }
}

/// Reads in Table B the length in minutes that it gives for a flight duty period (117.13(a)), by the acclimated minute
/// of the day of its report and its number of segments. A start of 1,440 or more reads the last row, and no segment the
/// first column.
pub fn table_b(start: u16, segments: usize) -> u32
    ensures { result ≡ minutes_b start segments }
{
    row(start)[segments.clamp(1, 7) - 1]
}

/// Reads the row of Table B for that start: the minutes for 1 to 7 segments.
fn row(start: u16) -> [u32; 7]
    ensures { result ≡ row_of start }
{
    match start {
        0..=239 => [540, 540, 540, 540, 540, 540, 540],
        240..=299 => [600, 600, 600, 600, 540, 540, 540],
        300..=359 => [720, 720, 720, 720, 690, 660, 630],
        360..=419 => [780, 780, 720, 720, 690, 660, 630],
        420..=719 => [840, 840, 780, 780, 750, 720, 690],
        720..=779 => [780, 780, 780, 780, 750, 720, 690],
        780..=1_019 => [720, 720, 720, 720, 690, 660, 630],
        1_020..=1_319 => [720, 720, 660, 660, 600, 540, 540],
        1_320..=1_379 => [660, 660, 600, 600, 540, 540, 540],
        _ => [600, 600, 600, 540, 540, 540, 540],
    }
}
