//! What an expression or a statement stands in.
ghost use Rattle.std.specs.Prelude.{◌≡◌};
ghost use Rattle.js_nodes.specs.Operands as operands;
ghost use Rattle.js_nodes.specs.Pieces as pieces;

/// What may follow a statement.
#[derive(Clone, Copy, Debug, PartialEq, Eq)]
pub struct After {
    /// A statement.
    pub statement: bool,
    /// A function declaration.
    pub declaration: bool,
    /// The `}` of a block or a body.
    pub brace: bool,
    /// A `case` or `default`.
    pub case: bool,
    /// An `else`.
    pub otherwise: bool,
    /// The `while` of a `do`.
    pub repeat: bool,
    /// The end of the script.
    pub end: bool,
}

/// What ends an expression.
#[derive(Clone, Copy, Debug, PartialEq, Eq)]
pub enum Closer {
    /// A `;`, or one that is inserted before what may follow the statement.
    Statement(After),
    /// A `;`, in the head of a `for`.
    Semicolon,
    /// A `)`.
    Paren,
    /// A `]`.
    Bracket,
    /// A `}`.
    Brace,
    /// The `:` of a conditional, before which no comma stands.
    Middle,
    /// The `:` of a `case`.
    Case,
}

/// What an expression stands in.
#[derive(Clone, Copy, Debug, PartialEq, Eq)]
pub struct Context {
    /// What ends it.
    pub closer: Closer,
    /// Whether `in` is an operator (ECMA-262 5.1, section 11, the productions without NoIn).
    pub has_in: bool,
}

/// What a statement stands in.
#[derive(Clone, Copy, Debug, PartialEq, Eq)]
pub struct Inside {
    /// A function, so that `return` may stand here.
    pub function: bool,
    /// A loop, so that `continue` may stand here.
    pub turning: bool,
    /// A loop or a `switch`, so that `break` may stand here.
    pub leaving: bool,
    /// What may follow it.
    pub after: After,
}

impl Context {
    /// Where an expression ends so, and `in` is an operator.
    pub fn of(closer: Closer) -> Context
        ensures { result ≡ operands.context closer }
    {
        Context {
            closer,
            has_in: true,
        }
    }

    /// The first part of a `for` head.
    pub fn first() -> Context
        ensures { result ≡ operands.first_context }
    {
        Context {
            closer: Closer::Semicolon,
            has_in: false,
        }
    }

    /// Between the `?` and the `:` of a conditional here.
    pub fn middle(self) -> Context
        ensures { result ≡ operands.middle self }
    {
        Context {
            closer: Closer::Middle,
            has_in: self.has_in,
        }
    }
}

impl After {
    /// Nothing.
    fn nothing() -> After
        ensures { result ≡ pieces.nothing_after }
    {
        After {
            statement: false,
            declaration: false,
            brace: false,
            case: false,
            otherwise: false,
            repeat: false,
            end: false,
        }
    }

    /// Any statement, as in a list of statements, and nothing else.
    fn statements() -> After
        ensures { result ≡ pieces.statements_after }
    {
        After {
            statement: true,
            ..After::nothing()
        }
    }
}

impl Inside {
    /// Outside of functions.
    pub fn script() -> Inside
        ensures { result ≡ pieces.outside }
    {
        Inside {
            function: false,
            turning: false,
            leaving: false,
            after: After {
                declaration: true,
                end: true,
                ..After::statements()
            },
        }
    }

    /// In a function, outside of its loops.
    pub fn called() -> Inside
        ensures { result ≡ pieces.called }
    {
        Inside {
            function: true,
            turning: false,
            leaving: false,
            after: After {
                declaration: true,
                brace: true,
                ..After::statements()
            },
        }
    }

    /// In a block here.
    pub fn in_braces(self) -> Inside
        ensures { result ≡ pieces.braces self }
    {
        Inside {
            after: After {
                brace: true,
                ..After::statements()
            },
            ..self
        }
    }

    /// In the first part of an `if` here.
    pub fn before_else(self) -> Inside
        ensures { result ≡ pieces.before_else self }
    {
        Inside {
            after: After {
                otherwise: true,
                ..self.after
            },
            ..self
        }
    }

    /// In a loop here.
    pub fn in_loop(self) -> Inside
        ensures { result ≡ pieces.turning self }
    {
        Inside {
            turning: true,
            leaving: true,
            ..self
        }
    }

    /// In the body of a `do` here.
    pub fn in_do(self) -> Inside
        ensures { result ≡ pieces.doing self }
    {
        Inside {
            turning: true,
            leaving: true,
            after: After {
                repeat: true,
                ..After::nothing()
            },
            ..self
        }
    }

    /// In a `switch` here.
    pub fn in_switch(self) -> Inside
        ensures { result ≡ pieces.choosing self }
    {
        Inside {
            leaving: true,
            after: After {
                brace: true,
                case: true,
                ..After::statements()
            },
            ..self
        }
    }
}
