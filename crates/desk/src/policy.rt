//! Written by `desk/make.py`: it has the hashes of the script and the style of the page.

/// What a browser lets the page do.
pub const POLICY: &str =
    "default-src 'none'; script-src 'sha256-NQqIwLp1dKyoIhYdbkCxz/ISx+FX15M/icQCqvyuCSs='; style-src 'sha256-a1KZm8FOuLrNGtq9+cFlr5qcoEGwWdEIZP9zEV71+OU='; connect-src 'self'; img-src data:; base-uri 'none'; form-action 'none'; frame-ancestors 'none'; require-trusted-types-for 'script'; trusted-types 'none'";
