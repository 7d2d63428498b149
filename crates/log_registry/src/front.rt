//! Reads the front of a log, as far as a header goes.
//!
//! A read that gives fewer bytes than there is room for is no fault. It is followed by another one, until there are
//! 40 bytes or a read gives none.
ghost use Rattle.std.specs.Prelude.{◌≡◌, ◌+◌, ◌≤◌, length, IfOk, OnErr, OnOk};
ghost use Rattle.std.specs.Io.{ReadsAtMost};
ghost use Rattle.rl_ports.specs.Faults.{NoneCounted, ReadsFrom, Told, Rose};
ghost use Rattle.log_registry.specs.Front.{IsReadTo, IsReadOn, IsFront};

use redo_wire::HEADER_LENGTH;
use rl_ports::{Archive, Failed};

// Asks the archive once.
fn read_once<A: Archive>(
    archive: &mut A,
    seq: u32,
    at: u64,
    into: &mut [u8],
) -> Result<usize, Failed>
    ensures bound { ReadsAtMost result into.new }
    ensures bytes { Told (A.logs archive.old) (λ logs. IfOk result (ReadsFrom (logs seq) at into.new)) }
    ensures logs { A.logs archive.new ≡ A.logs archive.old }
    ensures failed { OnErr result (Rose (A.faults archive.old) (A.faults archive.new)) }
    ensures none_passed_over { OnOk result (NoneCounted A.counts_failures_alone (A.faults archive.old) (A.faults archive.new)) }
    ensures count { A.faults archive.old ≤ A.faults archive.new }
{
    archive.read(seq, at, into)
}

// Reads more bytes behind the first `count`, and says how many.
fn read_on<A: Archive>(
    archive: &mut A,
    seq: u32,
    front: &mut [u8],
    count: usize,
) -> Result<usize, Failed>
    requires within { count ≤ length front.old }
    requires read { Told (A.logs archive.old) (λ logs. IsReadTo (logs seq) front.old count) }
    ensures bound { IfOk result (λ more. count + more ≤ length front.new) }
    ensures read { Told (A.logs archive.old) (λ logs. IfOk result (IsReadOn (logs seq) front.new count)) }
    ensures logs { A.logs archive.new ≡ A.logs archive.old }
    ensures failed { OnErr result (Rose (A.faults archive.old) (A.faults archive.new)) }
    ensures none_passed_over { OnOk result (NoneCounted A.counts_failures_alone (A.faults archive.old) (A.faults archive.new)) }
    ensures count { A.faults archive.old ≤ A.faults archive.new }
{
    read_once(archive, seq, count as u64, &mut front[count..])
}

/// Reads the front of a log, and says how many bytes it has.
pub(crate) fn read_front<A: Archive>(
    archive: &mut A,
    seq: u32,
    front: &mut [u8; HEADER_LENGTH],
) -> Result<usize, Failed>
    ensures bound { IfOk result (λ count. count ≤ HEADER_LENGTH) }
    ensures front { Told (A.logs archive.old) (λ logs. IfOk result (IsFront (logs seq) front.new)) }
    ensures logs { A.logs archive.new ≡ A.logs archive.old }
    ensures failed { OnErr result (Rose (A.faults archive.old) (A.faults archive.new)) }
    ensures none_passed_over { OnOk result (NoneCounted A.counts_failures_alone (A.faults archive.old) (A.faults archive.new)) }
    ensures count { A.faults archive.old ≤ A.faults archive.new }
{
    let mut count = 0;
    while count < HEADER_LENGTH {
        let more = read_on(archive, seq, front, count)?;
        if more == 0 {
            return Ok(count);
        }
        count += more;
    }
    Ok(count)
}
