//! The numbers that bound a page's work (this project's own).
ghost use Rattle.page_units.specs.Limits.{AreLimits, numbers};

pub mod numbers;

/// One of the numbers that bound a page's work, with its default.
#[derive(Clone, Copy, Debug, PartialEq, Eq)]
pub enum Limit {
    /// Weight spent by the page: 2,000,000.
    Weight,
    /// Steps of a task: 1,000,000.
    TaskSteps,
    /// Node evaluations and inner calls in progress: 600.
    Depth,
    /// UTF-16 units of a text: 65,535.
    Text,
    /// Bytes of a served tree text: 1,048,576.
    DomText,
    /// Page requests of a command: 32.
    Requests,
    /// Timer firings of a tick: 1,000.
    Firings,
    /// Guesses of the page: 64.
    Guesses,
    /// Contexts in the pool: 16.
    Contexts,
    /// Speculations of an idle turn: 8.
    PerIdle,
    /// Steps of mutator, dispatch and settling of one speculation: 200,000.
    SpecSteps,
    /// Weight of the same: 100,000.
    SpecWeight,
    /// Steps of one sketch: 20,000.
    SketchSteps,
    /// Requests of a run: 100,000.
    Served,
}

/// The bounds of a page's work. Each is at most its default, but for the steps of a speculation,
/// which are at most those of a task; the length of a text is just its default.
#[derive(Clone, Copy, Debug, PartialEq, Eq)]
pub struct Limits {
    /// Weight spent by the page.
    pub weight: u64,
    /// Steps of a task.
    pub task_steps: u64,
    /// Node evaluations and inner calls in progress.
    pub depth: u64,
    /// UTF-16 units of a text.
    pub text: u64,
    /// Bytes of a served tree text.
    pub dom_text: u64,
    /// Page requests of a command.
    pub requests: u64,
    /// Timer firings of a tick.
    pub firings: u64,
    /// Guesses of the page.
    pub guesses: u64,
    /// Contexts in the pool.
    pub contexts: u64,
    /// Speculations of an idle turn.
    pub per_idle: u64,
    /// Steps of mutator, dispatch and settling of one speculation.
    pub spec_steps: u64,
    /// Weight of the same.
    pub spec_weight: u64,
    /// Steps of one sketch.
    pub sketch_steps: u64,
    /// Requests of a run.
    pub served: u64,
    pub ghost kept: { AreLimits (numbers weight task_steps depth text dom_text requests firings guesses contexts per_idle spec_steps spec_weight sketch_steps served) },
}
