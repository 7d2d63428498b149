//! Writes lines to a sink.

ghost use Rattle.std.specs.Prelude.{◌≡◌, ◌<◌, ◌++◌, ◌∷◌, [], length, IfOk, OnOk, OnErr};
ghost use Rattle.std.specs.Io.{WritesAtMost};
ghost use Rattle.std.specs.Io.KnownBytes.{Appends, WriteAppends};
ghost use Rattle.rl_ports.specs.Faults.{HasCause, NoneCounted};
ghost use Rattle.rl_text.specs.Written.{AppendsFront};

use rl_base::{LF, Line};
use rl_ports::{Failed, Sink};

/// Writes the line and a line end. It takes no memory. After a refusal a front of these bytes is written.
pub fn put_line<O: Sink>(out: &mut O, line: &Line) -> Result<(), Failed>
    ensures line { OnOk result (Appends (O.written out.old) (O.written out.new) (line.now ++ LF ∷ [])) }
    ensures front { OnErr result (AppendsFront (O.written out.old) (O.written out.new) (line.now ++ LF ∷ [])) }
    ensures none_passed_over { OnOk result (NoneCounted O.counts_failures_alone (O.faults out.old) (O.faults out.new)) }
    ensures cause { HasCause (O.faults out.old) (O.faults out.new) result }
{
    put_bytes(out, line.items())?;
    put_bytes(out, &[LF])
}

fn put_bytes<O: Sink>(out: &mut O, bytes: &[u8]) -> Result<(), Failed>
    ensures bytes { OnOk result (Appends (O.written out.old) (O.written out.new) bytes.now) }
    ensures front { OnErr result (AppendsFront (O.written out.old) (O.written out.new) bytes.now) }
    ensures none_passed_over { OnOk result (NoneCounted O.counts_failures_alone (O.faults out.old) (O.faults out.new)) }
    ensures cause { HasCause (O.faults out.old) (O.faults out.new) result }
{
    let mut rest = bytes;
    while !rest.is_empty() {
        let count = put_some(out, rest)?;
        let (_, left) = rest.split_at(count);
        rest = left;
    }
    Ok(())
}

// Gives the sink a piece once, and says how many bytes it took.
fn put_some<O: Sink>(out: &mut O, piece: &[u8]) -> Result<usize, Failed>
    requires some { 0 < length piece.now }
    ensures bound { WritesAtMost result piece.now }
    ensures some { IfOk result (λ count. 0 < count) }
    ensures bytes { WriteAppends (O.written out.old) (O.written out.new) result piece.now }
    ensures none_passed_over { OnOk result (NoneCounted O.counts_failures_alone (O.faults out.old) (O.faults out.new)) }
    ensures cause { HasCause (O.faults out.old) (O.faults out.new) result }
{
    match out.write(piece) {
        // The sink has counted this as a fault.
        Ok(0) => Err(Failed),
        taken => taken,
    }
}
