//! Writes text to a sink, in as many pieces as the sink takes.
ghost use Rattle.std.specs.Prelude.{◌≡◌, ◌≢◌, ◌≤◌, ◌<◌, length, take, OnOk, OnErr, IfOk, Err};
ghost use Rattle.std.specs.Io.KnownBytes.{Appends};
ghost use Rattle.rl_ports.specs.Faults.{NoneCounted, Rose};
ghost use Rattle.redolog.specs.declared.refusal.StreamFault.TheVariants as streams;

use crate::refusal::StreamFault;
use rl_ports::Sink;

fn put_some<O: Sink>(out: &mut O, piece: &[u8]) -> Result<usize, StreamFault>
    requires some { 0 < length piece.now }
    ensures bound { IfOk result (λ count. (0 < count) × (count ≤ length piece.now)) }
    ensures bytes { IfOk result (λ count. Appends (O.written out.old) (O.written out.new) (take count piece.now)) }
    ensures cause { OnErr result (result ≡ Err streams.Output) }
    ensures output_failed { result ≡ Err streams.Output → Rose (O.faults out.old) (O.faults out.new) }
    ensures output_answered { result ≢ Err streams.Output →
        NoneCounted O.counts_failures_alone (O.faults out.old) (O.faults out.new) }
    ensures output_count { O.faults out.old ≤ O.faults out.new }
{
    match out.write(piece) {
        // The sink has counted this as a fault.
        Ok(0) => Err(StreamFault::Output),
        Ok(count) => Ok(count),
        Err(_) => Err(StreamFault::Output),
    }
}

/// Writes all of the text. After a refusal a front of it may be written.
pub fn say<O: Sink>(out: &mut O, text: &[u8]) -> Result<(), StreamFault>
    ensures whole { OnOk result (Appends (O.written out.old) (O.written out.new) text.now) }
    ensures cause { OnErr result (result ≡ Err streams.Output) }
    ensures output_failed { result ≡ Err streams.Output → Rose (O.faults out.old) (O.faults out.new) }
    ensures output_answered { result ≢ Err streams.Output →
        NoneCounted O.counts_failures_alone (O.faults out.old) (O.faults out.new) }
    ensures output_count { O.faults out.old ≤ O.faults out.new }
{
    let mut done = 0;
    while done < text.len() {
        let taken = put_some(out, &text[done..])?;
        done += taken;
    }
    Ok(())
}
