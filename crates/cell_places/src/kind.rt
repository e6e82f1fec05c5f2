//! Kinds of cells (this project's own).
ghost use Rattle.std.specs.Prelude.{◌≡◌, MatchOption, false};
ghost use Rattle.cell_places.specs.Kinds as kinds;
ghost use Rattle.cell_places.specs.declared.kind.CellKind.TheVariants.{Element};

use page_units::{CellName, NoMemory, Text};

/// The name of a fault: the classes of ECMA-262 5.1, 15.11, and two names of WHATWG DOM.
#[derive(Clone, Copy, Debug, PartialEq, Eq)]
pub enum FaultName {
    Error,
    TypeError,
    RangeError,
    ReferenceError,
    SyntaxError,
    HierarchyRequestError,
    NotFoundError,
}

/// What a cell is; it never changes (this project's own).
#[derive(Drop)]
pub enum CellKind {
    /// A scope within another, or the global one.
    Scope(Option<CellName>),
    /// An object without a class of its own.
    Plain,
    /// A list, with its length.
    List,
    /// A fault of this name.
    Fault(FaultName),
    /// A function of the page: the number of its code, and its scope.
    Fun(u32, CellName),
    /// A built-in function: its number, from 0.
    Native(u32),
    /// The page itself, with its clock, timers and guesses.
    Page,
    /// The document, which is the parent of the page's outermost nodes.
    Document,
    /// An element of this name, in lower-case letters.
    Element(Text),
    /// A text node.
    Chars,
    /// An event that is dispatched, or was.
    Event,
}

impl CellKind {
    /// Whether the cell is a scope.
    pub fn is_scope(&self) -> bool
        ensures { result ≡ kinds.is_scope self.now }
    {
        matches!(self, CellKind::Scope(_))
    }

    /// Whether it is the page.
    pub fn is_page(&self) -> bool
        ensures { result ≡ kinds.is_page self.now }
    {
        matches!(self, CellKind::Page)
    }

    /// Whether it is a list.
    pub fn is_list(&self) -> bool
        ensures { result ≡ kinds.is_list self.now }
    {
        matches!(self, CellKind::List)
    }

    /// Whether it is an event.
    pub fn is_event(&self) -> bool
        ensures { result ≡ kinds.is_event self.now }
    {
        matches!(self, CellKind::Event)
    }

    /// Whether it is the document.
    pub fn is_document(&self) -> bool
        ensures { result ≡ kinds.is_document self.now }
    {
        matches!(self, CellKind::Document)
    }

    /// Whether it is an element.
    pub fn is_element(&self) -> bool
        ensures { result ≡ kinds.is_element self.now }
    {
        matches!(self, CellKind::Element(_))
    }

    /// Whether it is a text node.
    pub fn is_chars(&self) -> bool
        ensures { result ≡ kinds.is_chars self.now }
    {
        matches!(self, CellKind::Chars)
    }

    /// Whether it can be called: a function of the page or a built-in one.
    pub fn is_function(&self) -> bool
        ensures { result ≡ kinds.is_function self.now }
    {
        matches!(self, CellKind::Fun(_, _) | CellKind::Native(_))
    }

    /// Whether a value can be the cell, and it has ordinary properties: all but scopes and the page.
    pub fn is_object(&self) -> bool
        ensures { result ≡ kinds.is_object self.now }
    {
        !matches!(self, CellKind::Scope(_) | CellKind::Page)
    }

    /// Whether it can be a child: an element or a text node.
    pub fn is_child(&self) -> bool
        ensures { result ≡ kinds.is_child self.now }
    {
        matches!(self, CellKind::Element(_) | CellKind::Chars)
    }

    /// Whether it can have children: an element or the document.
    pub fn is_parent(&self) -> bool
        ensures { result ≡ kinds.is_parent self.now }
    {
        matches!(self, CellKind::Element(_) | CellKind::Document)
    }

    /// Whether it is a node: the document, an element or a text node.
    pub fn is_node(&self) -> bool
        ensures { result ≡ kinds.is_node self.now }
    {
        self.is_parent() || self.is_chars()
    }

    /// The name of an element, in lower-case letters; None where it is no element.
    pub fn element_name(&self) -> Option<&Text>
        ensures { MatchOption result (kinds.is_element self.now ≡ false) (λ name. self.now ≡ Element name.now) }
    {
        match self {
            CellKind::Element(name) => Some(name),
            _ => None,
        }
    }
}

impl Clone for CellKind {
    ghost is_clone = { λ a b. b ≡ a };

    fn clone(&self) -> Result<CellKind, NoMemory> {
        match self {
            CellKind::Scope(outer) => Ok(CellKind::Scope(*outer)),
            CellKind::Plain => Ok(CellKind::Plain),
            CellKind::List => Ok(CellKind::List),
            CellKind::Fault(name) => Ok(CellKind::Fault(*name)),
            CellKind::Fun(code, scope) => Ok(CellKind::Fun(*code, *scope)),
            CellKind::Native(which) => Ok(CellKind::Native(*which)),
            CellKind::Page => Ok(CellKind::Page),
            CellKind::Document => Ok(CellKind::Document),
            CellKind::Element(name) => Ok(CellKind::Element(name.clone()?)),
            CellKind::Chars => Ok(CellKind::Chars),
            CellKind::Event => Ok(CellKind::Event),
        }
    }
}
