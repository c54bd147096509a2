//! What the browser lets the page do.

/// The page runs its own script and its own style, which are known by their SHA-256, asks the site
/// that it comes from, and nothing else. `scripts/test page` reports a sum that doesn't match the
/// page.
pub const POLICY: &str = concat!(
    "default-src 'none'; base-uri 'none'; form-action 'none'; frame-ancestors 'none'; ",
    "connect-src 'self'; ",
    "style-src 'sha256-ejKG0ED8LAAccW+CzoGK17zHmiWVffnsGo5vUjsHCF0='; ",
    "script-src 'sha256-8atzNEPfiy4cKA6PMc5gRrQT8owbhPNR6aFTun5BXqI='",
);
