// Blocks that led to no picture, and the pictures that are missing.
ghost use Rattle.std.specs.Prelude.{◌≡◌};
ghost use Rattle.laws.specs.Choice.{pick};
ghost use Rattle.account.specs.Idle.{fresh_idle, dropped, wasted, beginning, going_on, of_block, idle_after};

use standing::Answer;

// Since the last picture that was finished: whether blocks led to none, the first and the last of them; whether a picture has begun, its first block and its last so far;
// and the number of the picture that comes next.
#[derive(Clone, Copy, PartialEq, Eq)]
pub struct Idle {
    pub any: bool,
    pub from: u64,
    pub to: u64,
    pub begun: bool,
    pub first: u64,
    pub last: u64,
    pub next: u64,
}

pub fn open(next: u64) -> Idle
    ensures { result ≡ fresh_idle next }
{
    Idle {
        any: false,
        from: 0,
        to: 0,
        begun: false,
        first: 0,
        last: 0,
        next,
    }
}

// The first block that led to no picture: the one before, or this one.
fn first_of(idle: Idle, n: u64) -> u64
    ensures { result ≡ pick idle.any idle.from n }
{
    if idle.any {
        return idle.from;
    }
    n
}

// The picture that has begun is dropped: its blocks led to none.
#[tactic(auto, unfolding(crate::specs::Idle::dropped))]
pub fn drop(idle: Idle) -> Idle
    ensures { result ≡ dropped idle }
{
    if idle.begun {
        return Idle {
            any: true,
            from: first_of(idle, idle.first),
            to: idle.last,
            begun: false,
            first: idle.first,
            last: idle.last,
            next: idle.next,
        };
    }
    idle
}

// Block n led to no picture.
#[tactic(auto, unfolding(crate::specs::Idle::wasted))]
fn waste(idle: Idle, n: u64) -> Idle
    ensures { result ≡ wasted idle n }
{
    Idle {
        any: true,
        from: first_of(idle, n),
        to: n,
        begun: idle.begun,
        first: idle.first,
        last: idle.last,
        next: idle.next,
    }
}

// A picture begins with block n.
#[tactic(auto, unfolding(crate::specs::Idle::beginning))]
fn begin(idle: Idle, n: u64) -> Idle
    ensures { result ≡ beginning idle n }
{
    let mut next = idle;
    next.begun = true;
    next.first = n;
    next.last = n;
    next
}

// It goes on with block n.
#[tactic(auto, unfolding(crate::specs::Idle::beginning, crate::specs::Idle::going_on))]
fn go_on(idle: Idle, n: u64) -> Idle
    ensures { result ≡ going_on idle n }
{
    if idle.begun {
        let mut next = idle;
        next.last = n;
        return next;
    }
    begin(idle, n)
}

// Whether a refusal is of the block alone, and leaves what was collected.
fn of_block(number: u32) -> bool
    ensures { result ≡ of_block number }
{
    if number < 21 {
        return false;
    }
    number <= 23
}

#[tactic(auto, unfolding(crate::specs::Idle::beginning, crate::specs::Idle::dropped, crate::specs::Idle::going_on, crate::specs::Idle::idle_after, crate::specs::Idle::wasted))]
pub fn after(idle: Idle, n: u64, answer: Answer) -> Idle
    ensures { result ≡ idle_after idle n answer }
{
    match answer {
        Answer::Old(_, _) => idle,
        Answer::Taken(_, part) => {
            if part == 0 {
                return begin(drop(idle), n);
            }
            go_on(idle, n)
        }
        Answer::Lost => waste(drop(idle), n),
        Answer::Picture(picture, _) => open(picture as u64 + 1),
        Answer::Refused(why) => {
            let reason = why.reason;
            if of_block(refusals::number_of(reason)) {
                return idle;
            }
            waste(drop(idle), n)
        }
    }
}
