//! What stands at a place (this project's own).
ghost use Rattle.std.specs.Prelude.{◌≡◌};
ghost use Rattle.cell_places.specs.Heap.{names_in, cells_in, text_in, number_in, next_heard};
ghost use Rattle.cell_places.specs.Heap.{listeners_in, timers_in, guesses_in, cell_in};
ghost use Rattle.cell_places.specs.Heap as heap;

use page_units::{CellName, NoMemory, Shared, Text, Value};

/// A list of texts.
pub type Texts = Shared<Text>;

/// A list of names of cells.
pub type CellNames = Shared<CellName>;

/// The listeners of one object, in the order in which they were added.
pub type Listeners = Shared<Listener>;

/// The timers that wait.
pub type Timers = Shared<Timer>;

/// The page's guesses, in the order in which they were made.
pub type Guesses = Shared<Guess>;

/// A listener of an object (WHATWG DOM, 2.7): its serial number in that object, from 0, the type
/// of its events, and the function that is called.
#[derive(Drop)]
pub struct Listener {
    /// Its number among all that were ever added to the object, from 0.
    pub serial: u32,
    /// The type of the events that it hears.
    pub type_text: Text,
    /// The function that is called.
    pub callback: CellName,
    /// Whether it is called as the event comes down to its target.
    pub capture: bool,
    /// Whether it is removed before it is called.
    pub once: bool,
}

impl Clone for Listener {
    ghost is_clone = { λ a b. b ≡ a };

    fn clone(&self) -> Result<Listener, NoMemory> {
        Ok(Listener {
            serial: self.serial,
            type_text: self.type_text.clone()?,
            callback: self.callback,
            capture: self.capture,
            once: self.once,
        })
    }
}

/// A timer (after HTML, 8.6).
#[derive(Drop)]
pub struct Timer {
    /// Its id, from 1.
    pub id: i64,
    /// Its due moment on the page's clock, in milliseconds.
    pub due: i64,
    /// The function that is called.
    pub callback: CellName,
}

impl Clone for Timer {
    ghost is_clone = { λ a b. b ≡ a };

    fn clone(&self) -> Result<Timer, NoMemory> {
        Ok(Timer {
            id: self.id,
            due: self.due,
            callback: self.callback,
        })
    }
}

/// A guess of the page (this project's own).
#[derive(Drop)]
pub struct Guess {
    /// Its id, from 1.
    pub id: i64,
    /// The id of the element that the expected event has as its target.
    pub target: Text,
    /// The type of the expected event.
    pub type_text: Text,
    /// The new value of the target that it brings, if it brings one.
    pub value: Option<Text>,
    /// The function that runs before the event is tried, if there is one.
    pub mutator: Option<CellName>,
    /// The function whose text says whether a try still holds, if there is one.
    pub sketch: Option<CellName>,
}

impl Clone for Guess {
    ghost is_clone = { λ a b. b ≡ a };

    fn clone(&self) -> Result<Guess, NoMemory> {
        let target = self.target.clone()?;
        let type_text = self.type_text.clone()?;
        Ok(Guess {
            id: self.id,
            target,
            type_text,
            value: self.value.clone()?,
            mutator: self.mutator,
            sketch: self.sketch,
        })
    }
}

/// What stands at a place. A place that was never put is Absent. Clones share their lists.
#[derive(Drop)]
pub enum Answer {
    /// Nothing stands there.
    Absent,
    /// A value.
    One(Value),
    /// Names of properties or of attributes, in order.
    Names(Texts),
    /// Cells, in order.
    Cells(CellNames),
    /// The next serial number, and the listeners.
    Heard(u32, Listeners),
    /// The timers that wait.
    Timers(Timers),
    /// The guesses, in the order in which they were made.
    Guesses(Guesses),
}

impl Answer {
    /// Whether nothing stands at the place.
    pub fn is_absent(&self) -> bool
        ensures { result ≡ heap.is_absent self.now }
    {
        matches!(self, Answer::Absent)
    }

    /// Whether the answer is this text.
    pub fn is_text(&self, text: &Text) -> bool
        ensures { result ≡ heap.is_text text.now self.now }
    {
        match self {
            Answer::One(Value::Str(held)) => held == text,
            _ => false,
        }
    }

    /// The names of the answer; none where it holds none.
    pub fn names(&self) -> &[Text]
        ensures { result.now ≡ names_in self.now }
    {
        match self {
            Answer::Names(names) => names.as_slice(),
            _ => &[],
        }
    }

    /// The cells of the answer; none where it holds no list of cells.
    pub fn cells(&self) -> &[CellName]
        ensures { result.now ≡ cells_in self.now }
    {
        match self {
            Answer::Cells(cells) => cells.as_slice(),
            _ => &[],
        }
    }

    /// The cell that the answer is, if it is one.
    pub fn cell(&self) -> Option<CellName>
        ensures { result ≡ cell_in self.now }
    {
        match self {
            Answer::One(Value::Cell(cell)) => Some(*cell),
            _ => None,
        }
    }

    /// The units of the answer's text; none where it is no text.
    pub fn text_units(&self) -> &[u16]
        ensures { result.now ≡ text_in self.now }
    {
        match self {
            Answer::One(Value::Str(text)) => text.units(),
            _ => &[],
        }
    }

    /// The number that the answer is, or 0 where it is none.
    pub fn number(&self) -> i64
        ensures { result ≡ number_in self.now }
    {
        match self {
            Answer::One(Value::Num(number)) => *number,
            _ => 0,
        }
    }

    /// The serial number that the next listener gets, from 0.
    pub fn next_serial(&self) -> u32
        ensures { result ≡ next_heard self.now }
    {
        match self {
            Answer::Heard(next, _) => *next,
            _ => 0,
        }
    }

    /// The listeners, in the order in which they were added; none where none were.
    pub fn listeners(&self) -> &[Listener]
        ensures { result.now ≡ listeners_in self.now }
    {
        match self {
            Answer::Heard(_, listeners) => listeners.as_slice(),
            _ => &[],
        }
    }

    /// The timers that wait; none where none do.
    pub fn timers(&self) -> &[Timer]
        ensures { result.now ≡ timers_in self.now }
    {
        match self {
            Answer::Timers(timers) => timers.as_slice(),
            _ => &[],
        }
    }

    /// The guesses, in the order in which they were made; none where none were.
    pub fn guesses(&self) -> &[Guess]
        ensures { result.now ≡ guesses_in self.now }
    {
        match self {
            Answer::Guesses(guesses) => guesses.as_slice(),
            _ => &[],
        }
    }
}

impl Clone for Answer {
    ghost is_clone = { λ a b. b ≡ a };

    fn clone(&self) -> Result<Answer, NoMemory> {
        match self {
            Answer::Absent => Ok(Answer::Absent),
            Answer::One(value) => Ok(Answer::One(value.clone()?)),
            Answer::Names(names) => Ok(Answer::Names(names.clone()?)),
            Answer::Cells(cells) => Ok(Answer::Cells(cells.clone()?)),
            Answer::Heard(next, listeners) => Ok(Answer::Heard(*next, listeners.clone()?)),
            Answer::Timers(timers) => Ok(Answer::Timers(timers.clone()?)),
            Answer::Guesses(guesses) => Ok(Answer::Guesses(guesses.clone()?)),
        }
    }
}
