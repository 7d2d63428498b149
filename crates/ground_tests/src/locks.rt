//! Threads under one lock and under two. Each test ends by itself, and does the same whatever the schedule is.
ghost use Rattle.std.specs.Prelude.{◌≡◌, ◌+◌, ◌^◌, ◌<◌, ◌≤◌, vec_len};
ghost use Rattle.std.specs.Thread.{IsSync};

use std::alloc::{AllocError, Global};
use std::sync::Wait;
use std::test::Fail;
use std::thread::{Threads, join};
use tag_lock::{Held, Names, Seat, TagLock, Tagged};

/// The count from which on add adds nothing.
const TOP: u64 = 1 << 62;

/// A count in one run. Its rank is the count.
#[derive(Drop, Debug)]
struct Counter {
    run: u64,
    faults: u64,
    count: u64,
    ghost low: { count < 2 ^ 63 },
}

impl Tagged for Counter {
    ghost use Rattle.std.specs.Prelude.{◌≡◌, ◌≤◌};

    type Tag = u64;

    ghost faults = { λ c. c.faults };

    ghost stands = { λ tag start c. (c.run ≡ tag) × (start ≤ c.faults) };

    ghost height = { λ c. c.count };

    fn rank(&self) -> u64 {
        self.count
    }
}

impl Names for Counter {
    ghost names = { λ c. c.run };
}

impl Counter {
    fn at(run: u64, faults: u64, count: u64) -> Counter
        requires { count < 2 ^ 63 }
        ensures run { result.run ≡ run }
        ensures faults { result.faults ≡ faults }
        ensures count { result.count ≡ count }
    {
        Counter { run, faults, count }
    }

    // One more, up to the top.
    fn add(&mut self)
        ensures run { self.new.run ≡ self.old.run }
        ensures faults { self.new.faults ≡ self.old.faults }
        ensures count { self.old.count ≤ self.new.count }
    {
        if self.count < TOP {
            self.count += 1;
        }
    }
}

// Adds 1 under the lock.
fn add_one<W: Wait>(rt: &W, lock: &TagLock<Counter>, seat: Seat<Counter>) -> Seat<Counter>
    requires { seat.lock ≡ lock.now }
    ensures token { result ≡ record seat { seen = result.seen } }
    ensures not_below { seat.seen ≤ result.seen }
{
    let mut held = lock.take(rt, seat);
    held.value().add();
    lock.give(held)
}

// Adds 1 under the lock, this many times.
fn add_all<W: Wait>(
    rt: &W,
    lock: &TagLock<Counter>,
    mut seat: Seat<Counter>,
    times: u64,
) -> Seat<Counter>
    requires { seat.lock ≡ lock.now }
    ensures token { result ≡ record seat { seen = result.seen } }
{
    for _ in 0..times {
        seat = add_one(rt, lock, seat);
    }
    seat
}

/// Numbers in one run, in the order in which they came. Its rank is how many they are.
#[derive(Drop, Debug)]
struct Numbers {
    run: u64,
    items: Vec<u64>,
}

impl Tagged for Numbers {
    ghost use Rattle.std.specs.Prelude.{◌≡◌, vec_len};

    type Tag = u64;

    ghost faults = { λ _. 0 };

    ghost stands = { λ tag start n. (n.run ≡ tag) × (start ≡ 0) };

    ghost height = { λ n. vec_len n.items };

    fn rank(&self) -> u64 {
        self.items.len() as u64
    }
}

impl Names for Numbers {
    ghost names = { λ n. n.run };
}

impl Numbers {
    // One number more. For want of memory it is left out.
    fn note(&mut self, number: u64)
        ensures run { self.new.run ≡ self.old.run }
        ensures items { vec_len self.old.items ≤ vec_len self.new.items }
    {
        let _ = self.items.push(number);
    }
}

// Notes the number under the lock.
fn note_one<W: Wait>(
    rt: &W,
    lock: &TagLock<Numbers>,
    seat: Seat<Numbers>,
    number: u64,
) -> Seat<Numbers>
    requires { seat.lock ≡ lock.now }
    ensures { result ≡ record seat { seen = result.seen } }
{
    let mut held = lock.take(rt, seat);
    held.value().note(number);
    lock.give(held)
}

// Notes the number ten times under the lock.
fn note_ten<W: Wait>(
    rt: &W,
    lock: &TagLock<Numbers>,
    mut seat: Seat<Numbers>,
    number: u64,
) -> Seat<Numbers>
    requires { seat.lock ≡ lock.now }
    ensures { result ≡ record seat { seen = result.seen } }
{
    for _ in 0..10 {
        seat = note_one(rt, lock, seat, number);
    }
    seat
}

// So many threads note their numbers, from `count` down to 1.
fn crew<R: Threads + Wait + Sync>(
    rt: &R,
    lock: &TagLock<Numbers>,
    mut seat: Seat<Numbers>,
    count: u64,
) -> Seat<Numbers>
    requires lock { seat.lock ≡ lock.now }
    requires parts { count < seat.parts }
    ensures { result ≡ record seat { seen = result.seen } }
{
    if count == 0 {
        return seat;
    }
    let Ok(theirs) = lock.split(&mut seat) else {
        return seat;
    };
    let (theirs, mine) = join(
        rt,
        || -> Seat<Numbers>
            requires { theirs.lock ≡ lock.now }
            ensures { result ≡ record theirs { seen = result.seen } }
        { note_ten(rt, lock, theirs, count) },
        || -> Seat<Numbers>
            requires { IsSync R.row × (seat.lock ≡ lock.now) × (0 < count) × (count ≤ seat.parts) }
            ensures { result ≡ record seat { seen = result.seen } }
        { crew(rt, lock, seat, count - 1) },
    );
    lock.join(mine, theirs)
}

// How often the number stands there.
fn times(items: &[u64], number: u64) -> usize {
    items.iter().filter(|x| **x == number).count()
}

/// A seat of each of two locks.
#[derive(Drop)]
struct Seats {
    counter: Seat<Counter>,
    numbers: Seat<Numbers>,
}

// Adds 1 under the first lock and notes the number under the second, a hundred times.
fn count_and_note<W: Wait>(
    rt: &W,
    counter: &TagLock<Counter>,
    numbers: &TagLock<Numbers>,
    mut seats: Seats,
    number: u64,
) -> Seats
    requires { (seats.counter.lock ≡ counter.now) × (seats.numbers.lock ≡ numbers.now) }
    ensures counter { result.counter ≡ record seats.counter { seen = result.counter.seen } }
    ensures numbers { result.numbers ≡ record seats.numbers { seen = result.numbers.seen } }
{
    for _ in 0..100 {
        seats = Seats {
            counter: add_one(rt, counter, seats.counter),
            numbers: note_one(rt, numbers, seats.numbers, number),
        };
    }
    seats
}

// So many threads do so, with the numbers from `count` down to 1.
fn crew_of_two<R: Threads + Wait + Sync>(
    rt: &R,
    counter: &TagLock<Counter>,
    numbers: &TagLock<Numbers>,
    mut seats: Seats,
    count: u64,
) -> Seats
    requires locks { (seats.counter.lock ≡ counter.now) × (seats.numbers.lock ≡ numbers.now) }
    requires parts { (count < seats.counter.parts) × (count < seats.numbers.parts) }
    ensures counter { result.counter ≡ record seats.counter { seen = result.counter.seen } }
    ensures numbers { result.numbers ≡ record seats.numbers { seen = result.numbers.seen } }
{
    if count == 0 {
        return seats;
    }
    let Ok(counted) = counter.split(&mut seats.counter) else {
        return seats;
    };
    let Ok(noted) = numbers.split(&mut seats.numbers) else {
        return Seats {
            counter: counter.join(seats.counter, counted),
            numbers: seats.numbers,
        };
    };
    let theirs = Seats {
        counter: counted,
        numbers: noted,
    };
    let (theirs, mine) = join(
        rt,
        || -> Seats
            requires { (theirs.counter.lock ≡ counter.now) × (theirs.numbers.lock ≡ numbers.now) }
            ensures { (result.counter ≡ record theirs.counter { seen = result.counter.seen }) ×
                (result.numbers ≡ record theirs.numbers { seen = result.numbers.seen }) }
        { count_and_note(rt, counter, numbers, theirs, count) },
        || -> Seats
            requires { IsSync R.row × (0 < count) × (seats.counter.lock ≡ counter.now) × (seats.numbers.lock ≡ numbers.now) ×
                (count ≤ seats.counter.parts) × (count ≤ seats.numbers.parts) }
            ensures { (result.counter ≡ record seats.counter { seen = result.counter.seen }) ×
                (result.numbers ≡ record seats.numbers { seen = result.numbers.seen }) }
        { crew_of_two(rt, counter, numbers, seats, count - 1) },
    );
    Seats {
        counter: counter.join(mine.counter, theirs.counter),
        numbers: numbers.join(mine.numbers, theirs.numbers),
    }
}

fn needs_send<X: Send>() {}

fn needs_sync<X: Sync>() {}

fn needs_drop<X: Drop>() {}

// Where the value may go to another thread, threads may share its lock, and its seats may go to them. A seat may be
// let go whatever the value is.
fn crosses<V: Tagged + Send>() {
    needs_send::<TagLock<V>>();
    needs_sync::<TagLock<V>>();
    needs_send::<Seat<V>>();
    needs_drop::<Seat<V>>();
}

#[test]
fn two_threads_count_to_two_thousand(rt: HostRuntime) -> Result<(), Fail> {
    let Ok((lock, mut seat)) = TagLock::new(rt.alloc(), Counter::at(7, 0, 0)) else {
        panic!(rt; "no memory")
    };
    let Ok(theirs) = lock.split(&mut seat) else {
        panic!(rt; "no memory")
    };
    let (mine, theirs) = join(
        &rt,
        || -> Seat<Counter>
            requires { seat.lock ≡ lock }
            ensures { result ≡ record seat { seen = result.seen } }
        { add_all(&rt, &lock, seat, 1000) },
        || -> Seat<Counter>
            requires { theirs.lock ≡ lock }
            ensures { result ≡ record theirs { seen = result.seen } }
        { add_all(&rt, &lock, theirs, 1000) },
    );
    let mut seat = lock.join(mine, theirs);
    let rank = lock.rank(&mut seat);
    let counter = lock.close(seat);
    assert_eq!(rt; (counter.run, counter.count, rank), (7, 2000, 2000));
    Ok(())
}

#[test]
fn a_rank_shows_what_another_seat_gave(rt: HostRuntime) -> Result<(), Fail> {
    let Ok((lock, mut first)) = TagLock::new(rt.alloc(), Counter::at(7, 0, 0)) else {
        panic!(rt; "no memory")
    };
    let Ok(mut second) = lock.split(&mut first) else {
        panic!(rt; "no memory")
    };
    let before = lock.rank(&mut second);
    let first = add_one(&rt, &lock, first);
    let after = lock.rank(&mut second);
    let all = lock.join(first, second);
    let counter = lock.close(all);
    assert_eq!(rt; (before, after, counter.count), (0, 1, 1));
    Ok(())
}

#[test]
fn eight_threads_note_all_their_numbers(rt: HostRuntime) -> Result<(), Fail> {
    let numbers = Numbers {
        run: 7,
        items: Vec::new(rt.alloc()),
    };
    let Ok((lock, seat)) = TagLock::new(rt.alloc(), numbers) else {
        panic!(rt; "no memory")
    };
    let seat = crew(&rt, &lock, seat, 8);
    let numbers = lock.close(seat);
    assert_eq!(rt; numbers.items.len(), 80);
    for number in 1..9 {
        assert_eq!(rt; times(&numbers.items, number), 10, "of {number}");
    }
    Ok(())
}

#[test]
fn four_threads_work_under_two_locks(rt: HostRuntime) -> Result<(), Fail> {
    crosses::<Counter>();
    let Ok((counter, mut first)) = TagLock::new(rt.alloc(), Counter::at(7, 3, 0)) else {
        panic!(rt; "no memory")
    };
    let items = Numbers {
        run: 7,
        items: Vec::new(rt.alloc()),
    };
    let Ok((numbers, second)) = TagLock::beside(rt.alloc(), items, &first) else {
        panic!(rt; "no memory")
    };
    let seats = Seats {
        counter: first,
        numbers: second,
    };
    let seats = crew_of_two(&rt, &counter, &numbers, seats, 4);
    let counter = counter.close(seats.counter);
    let numbers = numbers.close(seats.numbers);
    assert_eq!(rt; (counter.count, numbers.items.len()), (400, 400));
    for number in 1..5 {
        assert_eq!(rt; times(&numbers.items, number), 100, "of {number}");
    }
    Ok(())
}
