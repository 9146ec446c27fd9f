// Many targets looked up in one reading, with a stand-in for the cursor: the first use of `thin`'s loops over a lent slice. The
// gate checks it, so that the theorems are shown to apply, until a call over many targets takes its place. Nothing links it.
//
// docs/LENT_CALLS.md names `thin`'s theorems, and they are about functions of this form: a loop counts a place, and a refusal is a number, 0
// where there is none, with what a refused call leaves beside it. So `Opened`, `Turn`, `Started`, `Marked` and what makes them hold no
// `Result`, and the four loops no iterator. `Asked` and `Served` hand the same number on; `Term` is written again, since `format` isn't linked
// here.

#![tactic(auto)]

pub mod lent;

ghost use Rattle.std.specs.Prelude.{◌≡◌};
ghost use Rattle.thin.specs.Fold.{pass};
ghost use Rattle.serves.specs.Serve.{asks_one, asks_all, opens, opens_docs, opens_freqs, turns, turns_docs, turns_freqs, ends};
ghost use Rattle.serves.specs.Serve.{served, seeks, Leaves};
ghost use Rattle.serves.specs.Mark.{larger, starts, starts_seen, starts_last, marks, marks_seen, marks_last, sums, marked};
ghost use Rattle.serves.specs.Mark.{LeavesMarked};

// A document number that is looked up, and what is found.
#[repr(C)]
#[derive(Clone, Copy)]
pub struct Target {
    pub id: u32,
    pub doc: u32,
    pub freq: u32,
    pub hit: bool,
}

#[repr(C)]
#[derive(Clone, Copy)]
pub struct Term {
    pub mode: u8,
    pub requested: u8,
    pub count: u32,
}

// The numbers of the cursor; its two arrays stand beside them.
#[derive(Clone, Copy)]
pub struct Numbers {
    pub place: usize,
    pub unpacked: usize,
    pub entries: usize,
}

// What came of asking the targets up to one: the refusal so far, and the last id.
#[derive(Clone, Copy)]
pub struct Asked {
    pub refusal: u8,
    pub last: u32,
}

#[derive(Clone, Copy)]
pub struct Opened {
    pub refusal: u8,
    pub numbers: Numbers,
}

#[derive(Clone, Copy)]
pub struct Turn {
    pub refusal: u8,
    pub target: Target,
    pub numbers: Numbers,
}

#[repr(C)]
#[derive(Clone, Copy)]
pub struct Served {
    pub refusal: u8,
    pub served: usize,
    pub unpacked: usize,
    pub entries: usize,
}

// One target: 10 where its id is above 2147483647, whatever was refused before; else the refusal so far; else 17 where it falls.
#[tactic(auto, unfolding(crate::specs::Serve::asks_one))]
fn ask(asked: Asked, t: Target) -> Asked
    ensures { result ≡ asks_one asked t }
{
    let refusal = if 2147483647 < t.id {
        10
    } else if asked.refusal != 0 {
        asked.refusal
    } else if t.id < asked.last {
        17
    } else {
        0
    };
    Asked {
        refusal,
        last: t.id,
    }
}

// A stand-in for opening. A refusal of the targets is a refusal here; an empty image is 9.
#[tactic(auto, unfolding(crate::specs::Serve::opens, crate::specs::Serve::opens_docs, crate::specs::Serve::opens_freqs))]
fn open(
    docs: &mut [u32; 128],
    freqs: &mut [u32; 128],
    asked: Asked,
    image: &[u8],
    term: Term,
) -> Opened
    ensures { (result ≡ opens asked image.now) ×
        ((docs.new ≡ opens_docs docs.old asked image.now term) ×
        (freqs.new ≡ opens_freqs freqs.old)) }
{
    let none = Numbers {
        place: 0,
        unpacked: 0,
        entries: 0,
    };
    if asked.refusal != 0 {
        return Opened {
            refusal: asked.refusal,
            numbers: none,
        };
    }
    if image.is_empty() {
        return Opened {
            refusal: 9,
            numbers: none,
        };
    }
    docs[0] = term.count;
    Opened {
        refusal: 0,
        numbers: Numbers {
            place: 1,
            unpacked: 1,
            entries: 0,
        },
    }
}

// A stand-in for a seek: it goes one place on, and the 128th is refused.
fn serve(
    docs: &mut [u32; 128],
    freqs: &mut [u32; 128],
    t: Target,
    n: Numbers,
    image: &[u8],
    term: Term,
) -> Turn
    ensures { (result ≡ turns docs.old freqs.old t n term) ×
        ((docs.new ≡ turns_docs docs.old t n) ×
        (freqs.new ≡ turns_freqs freqs.old n term)) }
{
    let place = n.place;
    if place < 128 {
        docs[place] = t.id;
        freqs[place] = term.count;
        Turn {
            refusal: 0,
            target: Target {
                id: t.id,
                doc: docs[0],
                freq: freqs[0],
                hit: true,
            },
            numbers: Numbers {
                place: place + 1,
                unpacked: n.unpacked,
                entries: n.entries,
            },
        }
    } else {
        Turn {
            refusal: 16,
            target: t,
            numbers: n,
        }
    }
}

#[tactic(auto, unfolding(crate::specs::Serve::ends))]
fn hand_out(refusal: u8, served: usize, n: Numbers) -> Served
    ensures { result ≡ ends refusal served n }
{
    Served {
        refusal,
        served,
        unpacked: n.unpacked,
        entries: n.entries,
    }
}

// All targets are asked: 10 where an id is too large, else 17 where one falls, else 0.
pub fn ask_all(targets: &[Target]) -> Asked
    ensures { result ≡ asks_all targets.now }
{
    let mut asked = Asked {
        refusal: 0,
        last: 0,
    };
    for i in 0..targets.len() {
        asked = ask(asked, targets[i]);
    }
    asked
}

// Targets that have been asked are served in order, up to the first refusal. 2147483647 has a name in `format`, which isn't linked here.
pub fn serve_all(targets: &mut [Target], asked: Asked, image: &[u8], term: Term) -> Served
    ensures { Leaves (served targets.old asked image.now term) result targets.new }
{
    let mut docs = [2147483647; 128];
    let mut freqs = [1; 128];
    let opened = open(&mut docs, &mut freqs, asked, image, term);
    if opened.refusal != 0 {
        return hand_out(opened.refusal, 0, opened.numbers);
    }
    let mut numbers = opened.numbers;
    for i in 0..targets.len() {
        let turn = serve(&mut docs, &mut freqs, targets[i], numbers, image, term);
        if turn.refusal != 0 {
            return hand_out(turn.refusal, i, numbers);
        }
        targets[i] = turn.target;
        numbers = turn.numbers;
    }
    hand_out(0, targets.len(), numbers)
}

// Both in a row; the theorem holds of an exported function as well.
#[unsafe(no_mangle)]
pub extern "C" fn seek_all(targets: &mut [Target], image: &[u8], term: Term) -> Served
    ensures { Leaves (seeks targets.old image.now term) result targets.new }
{
    let asked = ask_all(targets);
    serve_all(targets, asked, image, term)
}

// ---- the two loops at other types: numbers for the states, other arrays, other parameters

#[derive(Clone, Copy)]
pub struct Started {
    pub refusal: u8,
    pub next: usize,
}

#[derive(Clone, Copy)]
pub struct Marked {
    pub refusal: u8,
    pub target: Target,
    pub next: usize,
}

// The larger of a number and an id that is at least `least`.
#[tactic(auto, unfolding(crate::specs::Mark::larger))]
fn larger_of(most: u32, t: Target, least: u32) -> u32
    ensures { result ≡ larger most t least }
{
    if t.id < least {
        return most;
    }
    if most < t.id {
        return t.id;
    }
    most
}

// The largest id that is at least `least`, or 0.
pub fn largest(targets: &[Target], least: u32) -> u32
    ensures { result ≡ pass (λ z t. larger z t least) 0 targets.now }
{
    let mut most = 0;
    for i in 0..targets.len() {
        most = larger_of(most, targets[i], least);
    }
    most
}

#[tactic(auto, unfolding(crate::specs::Mark::starts, crate::specs::Mark::starts_seen, crate::specs::Mark::starts_last))]
fn start(seen: &mut [u8; 16], last: &mut [u64; 2], from: usize) -> Started
    ensures { (result ≡ starts from) ×
        ((seen.new ≡ starts_seen seen.old) × (last.new ≡ starts_last last.old)) }
{
    if from < 16 {
        return Started {
            refusal: 0,
            next: from,
        };
    }
    Started {
        refusal: 2,
        next: 0,
    }
}

fn mark(seen: &mut [u8; 16], last: &mut [u64; 2], t: Target, next: usize) -> Marked
    ensures { (result ≡ marks t next) ×
        ((seen.new ≡ marks_seen seen.old next) × (last.new ≡ marks_last last.old next)) }
{
    if next < 16 {
        seen[next] = 1;
        last[0] = 7;
        Marked {
            refusal: 0,
            target: Target {
                id: t.id,
                doc: 1,
                freq: t.freq,
                hit: false,
            },
            next: next + 1,
        }
    } else {
        Marked {
            refusal: 3,
            target: t,
            next,
        }
    }
}

#[tactic(auto, unfolding(crate::specs::Mark::sums))]
fn sum_up(refusal: u8, done: usize, next: usize) -> u64
    ensures { result ≡ sums refusal next }
{
    if refusal != 0 {
        return 0;
    }
    next as u64
}

// Marks targets, as many as there are places from `from` to 15; the next place, or 0 where there are more or `from` lies above 15.
// It has the form of `serve_all`, which is the theorem's, and is no second case of it: other states, arrays and parameters.
pub fn mark_all(targets: &mut [Target], from: usize) -> u64
    ensures { LeavesMarked (marked targets.old from) result targets.new }
{
    let mut seen = [0; 16];
    let mut last = [0; 2];
    let started = start(&mut seen, &mut last, from);
    if started.refusal != 0 {
        return sum_up(started.refusal, 0, started.next);
    }
    let mut next = started.next;
    for i in 0..targets.len() {
        let turn = mark(&mut seen, &mut last, targets[i], next);
        if turn.refusal != 0 {
            return sum_up(turn.refusal, i, next);
        }
        targets[i] = turn.target;
        next = turn.next;
    }
    sum_up(0, targets.len(), next)
}
