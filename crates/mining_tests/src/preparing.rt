//! Records through a window: decoded out of order and drawn in order, and what a window refuses.

ghost use Rattle.std.specs.Prelude.{◌≡◌, [], Ok, IfOk, IfSome};
ghost use Rattle.redo_vec.specs.Cutting.{first_record};

use preparers::*;
use redo_wire::{Header, Raw};
use rl_value::{Bytes, NoMemory, VecFault};
use std::alloc::Global;
use std::test::Fail;

// A commit at SCN 102.
const COMMIT: [u8; 23] = [
    0, 0, 0, 23, 0, 0, 0, 0, 0, 0, 0, 102, 0, 1, 6, 0, 1, 0, 2, 0, 0, 0, 3,
];

// The same with a kind of vector that there is not.
const STRANGE: [u8; 23] = [
    0, 0, 0, 23, 0, 0, 0, 0, 0, 0, 0, 102, 0, 1, 99, 0, 1, 0, 2, 0, 0, 0, 3,
];

const HEAD: Header = Header {
    seq: 1,
    dbid: 9,
    first: 100,
    next: 200,
    count: 3,
};

// These bytes as the record of this number.
fn cut(alloc: Global, rec: u64, bytes: &[u8]) -> Result<Raw, NoMemory>
    requires whole { first_record bytes.now ≡ Ok (bytes.now, []) }
    ensures whole { IfOk result (λ raw. first_record raw.bytes ≡ Ok (raw.bytes, [])) }
{
    let Ok(bytes) = Vec::from_slice(alloc, bytes) else {
        return Err(NoMemory);
    };
    Ok(Raw {
        rec,
        head: HEAD,
        end: 63,
        done: 2,
        bytes: Bytes::of(bytes),
    })
}

// Posts the commit of this number.
fn post(alloc: Global, window: &mut Window, rec: u64) -> Result<Result<(), Unposted>, NoMemory> {
    Ok(window.post(cut(alloc, rec, &COMMIT)?))
}

// Decodes a lent record and gives it back: its number, and whether it was taken.
fn decode(alloc: Global, window: &mut Window, lent: Option<Raw>) -> Result<(u64, bool), Fail>
    requires whole { IfSome lent (λ raw. first_record raw.bytes ≡ Ok (raw.bytes, [])) }
{
    let Some(raw) = lent else {
        return Err(Fail::from("nothing is lent"));
    };
    let rec = raw.rec;
    let Ok(piece) = prepare(alloc, raw) else {
        return Err(Fail::from("no memory"));
    };
    Ok((rec, window.prepared(piece)))
}

// The number of the piece that is drawn.
fn draw(window: &mut Window) -> Option<u64> {
    Some(window.draw()?.rec)
}

#[test]
fn pieces_prepared_as_3_1_2_are_drawn_as_1_2_3(rt: HostRuntime) -> Result<(), Fail> {
    let alloc = rt.alloc();
    let mut window = Window::new(alloc, 1)?;
    for rec in 1..=3 {
        assert!(rt; post(alloc, &mut window, rec)?.is_ok());
    }
    let lent = window.lend_last();
    assert_eq!(rt; decode(alloc, &mut window, lent)?, (3, true));
    assert_eq!(rt; draw(&mut window), None);
    let lent = window.lend();
    assert_eq!(rt; decode(alloc, &mut window, lent)?, (1, true));
    let mut copy = window.copy()?;
    let lent = copy.lend();
    assert_eq!(rt; decode(alloc, &mut copy, lent)?, (2, true));
    assert_eq!(rt; copy.waiting(), 3);
    for rec in 1..=3 {
        assert_eq!(rt; draw(&mut copy), Some(rec));
    }
    assert_eq!(rt; draw(&mut copy), None);
    Ok(())
}

#[test]
fn the_65th_record_finds_no_room(rt: HostRuntime) -> Result<(), Fail> {
    let alloc = rt.alloc();
    let mut window = Window::new(alloc, 7)?;
    for rec in 7..71 {
        assert!(rt; post(alloc, &mut window, rec)?.is_ok());
    }
    let full = post(alloc, &mut window, 71)?;
    assert!(rt; matches!(&full, Err(Unposted::Full(raw)) if raw.rec == 71));
    let not_next = post(alloc, &mut window, 72)?;
    assert!(rt; matches!(&not_next, Err(Unposted::NotNext(raw)) if raw.rec == 72));
    assert_eq!(rt; window.waiting(), 64);
    Ok(())
}

#[test]
fn a_copy_of_a_refusal_has_its_record(rt: HostRuntime) -> Result<(), Fail> {
    let alloc = rt.alloc();
    let copy = Unposted::NotNext(cut(alloc, 72, &COMMIT)?).copy()?;
    assert!(rt; matches!(&copy, Unposted::NotNext(raw) if raw.rec == 72));
    let copy = Unposted::Full(cut(alloc, 71, &COMMIT)?).copy()?;
    assert!(rt; matches!(&copy, Unposted::Full(raw) if raw.rec == 71));
    Ok(())
}

#[test]
fn a_piece_whose_number_is_not_lent_is_dropped(rt: HostRuntime) -> Result<(), Fail> {
    let alloc = rt.alloc();
    let mut window = Window::new(alloc, 4)?;
    assert!(rt; post(alloc, &mut window, 4)?.is_ok());
    for rec in 3..6 {
        let raw = Some(cut(alloc, rec, &COMMIT)?);
        assert_eq!(rt; decode(alloc, &mut window, raw)?, (rec, false));
    }
    let lent = window.lend();
    assert_eq!(rt; decode(alloc, &mut window, lent)?, (4, true));
    Ok(())
}

#[test]
fn a_record_that_does_not_decode_is_a_piece(rt: HostRuntime) -> Result<(), Fail> {
    let Ok(piece) = prepare(rt.alloc(), cut(rt.alloc(), 5, &STRANGE)?) else {
        return Err(Fail::from("no memory"));
    };
    let copy = piece.copy()?;
    assert_eq!(rt;
        (copy.rec, copy.end, copy.done, copy.head),
        (5, 63, 2, HEAD)
    );
    let fault = match copy.made {
        Made::Bad { fault, place } => Some((fault, place)),
        Made::Rec(_) => None,
    };
    assert_eq!(rt; fault, Some((VecFault::Kind, 14)));
    Ok(())
}
