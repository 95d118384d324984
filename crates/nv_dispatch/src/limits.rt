//! How much the server's editor takes.
ghost use Rattle.std.specs.Prelude.{◌≡◌};
ghost use Rattle.nv_dispatch.specs.Runs.{usual_limits};

use nv_model::Limits;

/// The limits of the server's editor (own rule).
pub fn usual_limits() -> Limits
    ensures { result ≡ usual_limits }
{
    Limits {
        lines: 16_777_216,
        line_bytes: 16_777_216,
        marks: 16_777_216,
        buffers: 65_536,
        windows: 1_024,
        namespaces: 65_536,
        groups: 65_536,
        uis: 65_536,
        ticks: 1 << 62,
        entries: 1 << 40,
    }
}
