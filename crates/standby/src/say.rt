//! Writes text to a sink, in as many pieces as the sink takes.
//!
//! What is written is always a prefix of the text. It ends early only where the sink's count of faults rose.
ghost use Rattle.std.specs.Prelude.{◌≤◌, OnOk, OnErr};
ghost use Rattle.std.specs.Io.KnownBytes.{Appends};
ghost use Rattle.rl_ports.specs.Faults.{NoneCounted, Rose};
ghost use Rattle.standby.specs.Writing.{AppendsPrefix};

use rl_ports::{Failed, Sink};

/// Writes all of the text, or a prefix of it where the sink fails.
pub fn say<O: Sink>(out: &mut O, text: &[u8]) -> Result<(), Failed>
    ensures whole { OnOk result (Appends (O.written out.old) (O.written out.new) text.now) }
    ensures prefix { AppendsPrefix (O.written out.old) (O.written out.new) text.now
        (Rose (O.faults out.old) (O.faults out.new)) }
    ensures none_passed_over { OnOk result (NoneCounted O.counts_failures_alone (O.faults out.old) (O.faults out.new)) }
    ensures failed { OnErr result (Rose (O.faults out.old) (O.faults out.new)) }
    ensures count { O.faults out.old ≤ O.faults out.new }
{
    let mut done = 0;
    while done < text.len() {
        let taken = out.write(&text[done..])?;
        // Nothing taken of a piece that is not empty is a fault of the sink, which has counted it.
        if taken == 0 {
            return Err(Failed);
        }
        done += taken;
    }
    Ok(())
}

/// Writes the last line of a command that ends at once, or of a program that can't begin. Where the sink refuses it, that is
/// all the same.
pub fn refuse<O: Sink>(out: &mut O, line: &[u8])
    ensures prefix { AppendsPrefix (O.written out.old) (O.written out.new) line.now
        (Rose (O.faults out.old) (O.faults out.new)) }
    ensures count { O.faults out.old ≤ O.faults out.new }
{
    let _ = say(out, line);
}
