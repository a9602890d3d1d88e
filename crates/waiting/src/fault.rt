//! Why a connection failed.
//! Wrong bodies: `must-fail-more/`.
use std::fmt;

/// Why a connection failed. It is printed as the program prints a refusal: its number and its name.
#[derive(Clone, Copy, Debug, PartialEq, Eq)]
pub enum ServeFault {
    /// The client isn't answered whole: its input or its output failed, or its time was up.
    Channel,
    /// The connection isn't taken.
    Network,
}

impl fmt::Display for ServeFault {
    ghost use Rattle.std.specs.Prelude.{Some};
    ghost use Rattle.waiting.specs.ServeText.{serve_text};

    ghost output = { λ fault. Some (serve_text fault) };

    fn fmt<W: fmt::Write>(&self, f: &mut fmt::Formatter<W>) -> fmt::Result {
        f.write_str(match self {
            ServeFault::Channel => "92 Channel",
            ServeFault::Network => "93 Network",
        })
    }
}

impl std::error::Error for ServeFault {}
