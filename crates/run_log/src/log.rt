//! The log, its end, and its beginnings.
ghost use Rattle.std.specs.Prelude.{◌≡◌, ◌+◌, ◌∷◌, [], option_copied};
ghost use mathlib.Core.List.{IsPrefix};
ghost use Rattle.logbook.specs.Pages.{may_write};
ghost use Rattle.run_log.specs.Follows.{of_lane, Follows};
ghost use Rattle.run_log.specs.Rules.{head_of, with_entry, IsPenOf};

use crate::link::Link;
use logbook::{Gain, Offer, Pen, Plain, Play, Rule, Seen, Start, Word};
use std::marker::{Brand, Model, PhantomData};

/// The rule of the log: each step of its end names the cell that the next one brings home, and so does each turn of a
/// lane. Only who has the pens of both cells can let the lane visit the end, and add an entry to it there.
pub struct Law;

impl<E> Rule<Link<E>, u64> for Law {
    ghost use Rattle.std.specs.Prelude.{[]};
    ghost use base.Fml.{ftrue};
    ghost use Rattle.run_log.specs.Rules.{IsKept};

    ghost holds = { λ cells log. IsKept cells log };

    ghost first = { [] };

    ghost hinted = { λ n log. Unit {0} };

    ghost shows = { λ log. [] };

    ghost keeps = { λ names log. ftrue };

    ghost moves = { λ ask before after answer. Unit {0} };
}

/// Callers trade nothing.
pub struct Nothing;

impl<E> Gain<Link<E>, u64> for Nothing {
    ghost use base.Fml.{ftrue};

    ghost after = { λ names about answer. ftrue };
}

/// A step that adds a cell.
pub struct Reserve;

impl<E> Play<Link<E>, u64> for Reserve {
    ghost use Rattle.run_log.specs.Rules.{Reserves};

    ghost then = { Reserves };
}

impl<E> Plain<(), Link<E>, u64> for Reserve {
    ghost use Rattle.std.specs.Prelude.{None};
    ghost use Rattle.run_log.specs.declared.link.Link.TheVariants.{Turn};

    ghost ask = { λ x. Turn 0 0 };

    ghost state = { λ x. None };
}

/// A step that adds a link, and brings a cell home.
pub struct Add;

impl<E> Play<Link<E>, u64> for Add {
    ghost use Rattle.run_log.specs.Rules.{Adds};

    ghost then = { Adds };
}

/// What a lane is begun after, and the pens of the cells that are named.
struct Beginning<E> {
    seen: Seen<Link<E>, u64, Law>,
    own: Pen,
    next: Pen,
}

impl<E> Plain<Beginning<E>, Link<E>, u64> for Add {
    ghost use Rattle.std.specs.Prelude.{None, reverse};
    ghost use Rattle.run_log.specs.Rules.{lanes_in};
    ghost use Rattle.run_log.specs.declared.link.Link.TheVariants.{Begun};

    ghost ask = { λ x. Begun (lanes_in (reverse x.seen.log)) x.own.nib.key x.next.nib.key };

    ghost state = { λ x. None };
}

/// The last turn of a lane, and the pen of the cell that is named.
struct Turning<E> {
    own: Seen<Link<E>, u64, Law>,
    pen: Pen,
}

impl<E> Plain<Turning<E>, Link<E>, u64> for Add {
    ghost use Rattle.std.specs.Prelude.{None, reverse};
    ghost use Rattle.run_log.specs.Rules.{lane_of};
    ghost use Rattle.run_log.specs.declared.link.Link.TheVariants.{Turn};

    ghost ask = { λ x. Turn (lane_of (reverse x.own.log)) x.pen.nib.key };

    ghost state = { λ x. None };
}

/// The last turn of a lane, the entry that it adds, if any, and the pen of the cell that is named.
struct Visiting<'a, E> {
    own: Seen<Link<E>, u64, Law>,
    adds: Option<&'a E>,
    pen: Pen,
}

impl<'a, E> Plain<Visiting<'a, E>, Link<E>, u64> for Add {
    ghost use Rattle.std.specs.Prelude.{None, option_copied, reverse};
    ghost use Rattle.run_log.specs.Rules.{lane_of};
    ghost use Rattle.run_log.specs.declared.link.Link.TheVariants.{Visited};

    ghost ask = { λ x. Visited (lane_of (reverse x.own.log)) (option_copied x.adds) x.pen.nib.key };

    ghost state = { λ x. None };
}

/// A new cell, and its pen.
fn new_cell<E>(word: &Word<Link<E>, u64, Law>, seen: &mut Seen<Link<E>, u64, Law>) -> Pen
    requires { word.now ≡ head_of seen.old.book }
    ensures book { seen.new.book ≡ seen.old.book }
    ensures seen { IsPrefix seen.old.log seen.new.log }
    ensures pen { (result.book ≡ seen.old.book) × (result.nib.right ≡ may_write) }
{
    let mut pen = seen.no_pen();
    let mut idle: Offer<Link<E>, u64, Law, Nothing> = seen.plain::<Nothing, (), Reserve>(&());
    let _found = word.compare_exchange::<Reserve, Nothing>(0, 1, seen, &mut idle, &mut pen);
    let _cell: Word<Link<E>, u64, Law> = Word::tracked(0, &mut pen);
    pen
}

/// What all of them know.
fn joined<E>(
    whole: &Seen<Link<E>, u64, Law>,
    mine: &Seen<Link<E>, u64, Law>,
    own: &Seen<Link<E>, u64, Law>,
) -> Seen<Link<E>, u64, Law>
    requires mine { mine.now.book ≡ whole.now.book }
    requires own { own.now.book ≡ whole.now.book }
    ensures book { result.book ≡ whole.now.book }
    ensures whole { IsPrefix whole.now.log result.log }
    ensures mine { IsPrefix mine.now.log result.log }
    ensures own { IsPrefix own.now.log result.log }
{
    let mut all = whole.again();
    all.learn(mine);
    all.learn(own);
    all
}

/// Which log it is. Each call of a program picks it.
pub trait Naming {
    ghost use Rattle.logbook.specs.Pages.{Book};

    ghost book: { Book };
}

impl Naming for Brand {
    ghost book = { record { number = 0; log_name = 0; cells_name = 0 } };
}

/// An empty log, which has no name yet.
pub struct Opened<E> {
    word: Word<Link<E>, u64, Law>,
    seen: Seen<Link<E>, u64, Law>,
    pen: Pen,
    pub ghost empty: { seen.log ≡ [] },
    pub ghost word_is: { word ≡ head_of seen.book },
    pub ghost pen_is: { IsPenOf seen.book 2 pen },
}

impl<E> Opened<E> {
    /// A log with no entries; none where somebody else added to it before it was opened, which nobody can.
    pub fn new() -> Option<Opened<E>> {
        let (mut seen, mut first, _second) = Seen::open(Start::alone(), 0, 0);
        let word = Word::tracked(0, &mut first);
        let mut idle: Offer<Link<E>, u64, Law, Nothing> = seen.plain::<Nothing, (), Reserve>(&());
        let mut pen = seen.no_pen();
        let found = word.compare_exchange::<Reserve, Nothing>(0, 1, &mut seen, &mut idle, &mut pen);
        if found != 0 {
            return None;
        }
        let _cell: Word<Link<E>, u64, Law> = Word::tracked(0, &mut pen);
        Some(Opened { word, seen, pen })
    }

    /// The end of the log under a name.
    pub fn named<J: Naming>(self) -> Head<E, J>
        requires { self.seen.book ≡ J.book }
        ensures { result ≡ record { lanes = 0; log = [] } }
    {
        let Opened { word, seen, pen } = self;
        Head {
            word,
            seen,
            pen,
            of: PhantomData,
        }
    }
}

/// A beginning of the log that was seen, and a lane of the log, to which only who holds it can add.
#[derive(Drop)]
pub struct Front<E, J: Naming> {
    own: Seen<Link<E>, u64, Law>,
    seen: Seen<Link<E>, u64, Law>,
    pen: Pen,
    of: PhantomData<J>,
}

impl<E, J: Naming> Model for Front<E, J> {
    ghost use Rattle.std.specs.Prelude.{◌≡◌, reverse};
    ghost use Rattle.run_log.specs.Follows.{Known};
    ghost use Rattle.run_log.specs.Rules.{entries_in, lane_of, HasTurn};

    ghost Value = { Known E };

    ghost view = { λ f. record { lane = lane_of (reverse f.own.log); log = entries_in (reverse f.seen.log) } };

    ghost invariant = { λ f. (f.own.book ≡ J.book) × (f.seen.book ≡ J.book)
        × HasTurn J.book (reverse f.own.log) (reverse f.seen.log) f.pen };
}

/// The end of the log. Whoever holds it knows the whole, and alone can begin lanes and let others add.
#[derive(Drop)]
pub struct Head<E, J: Naming> {
    word: Word<Link<E>, u64, Law>,
    seen: Seen<Link<E>, u64, Law>,
    pen: Pen,
    of: PhantomData<J>,
}

impl<E, J: Naming> Model for Head<E, J> {
    ghost use Rattle.std.specs.Prelude.{◌≡◌, reverse};
    ghost use Rattle.run_log.specs.Follows.{Whole};
    ghost use Rattle.run_log.specs.Rules.{entries_in, head_keys, head_of, lanes_in, newest, IsPenOf};

    ghost Value = { Whole E };

    ghost view = { λ h. record { lanes = lanes_in (reverse h.seen.log); log = entries_in (reverse h.seen.log) } };

    ghost invariant = { λ h. (h.word ≡ head_of J.book) × (h.seen.book ≡ J.book)
        × IsPenOf J.book (newest (head_keys (reverse h.seen.log))) h.pen };
}

impl<E, J: Naming> Head<E, J> {
    /// Begins a lane.
    pub fn lane(&mut self) -> Front<E, J>
        ensures begun { self.new ≡ record { lanes = self.old.lanes + 1; log = self.old.log } }
        ensures lane { result ≡ record { lane = self.old.lanes; log = self.old.log } }
        ensures none { of_lane result.lane result.log ≡ [] }
    {
        let mut seen = self.seen.again();
        let own = new_cell(&self.word, &mut seen);
        let next = new_cell(&self.word, &mut seen);
        let beginning = Beginning {
            seen: self.seen.again(),
            own,
            next,
        };
        let mut offer: Offer<Link<E>, u64, Law, Nothing> = seen.plain::<Nothing, Beginning<E>, Add>(
            &beginning,
        );
        let _found = self
            .word
            .compare_exchange::<Add, Nothing>(0, 1, &mut seen, &mut offer, &mut self.pen);
        let Beginning { seen: _, own, next } = beginning;
        self.pen = next;
        self.seen = seen.again();
        Front {
            own: seen.again(),
            seen,
            pen: own,
            of: PhantomData,
        }
    }

    /// Adds an entry to the lane of whoever asks for it, who knows the log then, and gives the entry back.
    pub fn add(&mut self, entry: E, mine: &mut Front<E, J>) -> E
        ensures entry { result ≡ entry }
        ensures added { self.new ≡ record { lanes = self.old.lanes; log = (mine.old.lane, entry) ∷ self.old.log } }
        ensures seen { mine.new ≡ record { lane = mine.old.lane; log = self.new.log } }
        ensures follows { Follows mine.old.lane mine.old.log self.old.log }
    {
        self.visit(Some(&entry), mine);
        entry
    }

    /// Lets whoever asks for it see the whole log, to which nothing is added.
    pub fn show(&mut self, mine: &mut Front<E, J>)
        ensures same { self.new ≡ self.old }
        ensures seen { mine.new ≡ record { lane = mine.old.lane; log = self.new.log } }
        ensures follows { Follows mine.old.lane mine.old.log self.old.log }
    {
        self.visit(None, mine);
    }

    /// Adds an entry to the lane of a front, if there is one to add, and lets the front see the whole log then.
    fn visit<'a>(&'a mut self, adds: Option<&'a E>, mine: &mut Front<E, J>)
        ensures log { self.new ≡ record self.old { log = with_entry mine.old.lane (option_copied adds.entry) self.old.log } }
        ensures seen { mine.new ≡ record { lane = mine.old.lane; log = self.new.log } }
        ensures follows { Follows mine.old.lane mine.old.log self.old.log }
    {
        let mut now = joined(&self.seen, &mine.seen, &mine.own);
        let own = new_cell(&self.word, &mut now);
        let next = new_cell(&self.word, &mut now);
        let turning = Turning {
            own: mine.own.again(),
            pen: own,
        };
        let mut turn: Offer<Link<E>, u64, Law, Nothing> = now.plain::<Nothing, Turning<E>, Add>(
            &turning,
        );
        let _found = self
            .word
            .compare_exchange::<Add, Nothing>(0, 1, &mut now, &mut turn, &mut mine.pen);
        let Turning { own: _, pen } = turning;
        mine.pen = pen;
        mine.own = now.again();
        let visiting = Visiting {
            own: now.again(),
            adds,
            pen: next,
        };
        let mut offer: Offer<Link<E>, u64, Law, Nothing> = now.plain::<Nothing, Visiting<E>, Add>(
            &visiting,
        );
        let _found = self
            .word
            .compare_exchange::<Add, Nothing>(0, 1, &mut now, &mut offer, &mut self.pen);
        let Visiting {
            own: _,
            adds: _,
            pen,
        } = visiting;
        self.pen = pen;
        self.seen = now.again();
        mine.seen = now;
    }
}
