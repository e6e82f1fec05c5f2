//! Rules that need no other (ECMA-262 5.1, sections 11 to 13).
ghost use Rattle.std.specs.Prelude.{◌≡◌, ◌≤◌, ◌<◌, ◌+◌, max, Some, None, IfOk, true};
ghost use Rattle.grammar.specs.Grammar.{first, done};
ghost use Rattle.grammar.specs.Reading.{read};
ghost use Rattle.js_nodes.specs.Next as ahead;
ghost use Rattle.js_nodes.specs.Operands as operands;
ghost use Rattle.js_cursor.specs.Rules as rules;
ghost use Rattle.js_cursor.specs.Reads.{Reads};

use crate::cursor::Cursor;
use js_lexer::{Kind, Punct, Token};
use js_nodes::classes::{is_left_out, member_text};
use js_nodes::nodes::{index_node, member_node};
use js_nodes::operators::{prefixed, step_op};
use js_nodes::{
    Context, Depth, Fault, NOTHING, Names, Operand, ParseError, Said, State, node, stmt_node,
};
use js_tree::{Expr, FnCode, Stmt};
use page_units::Text;
use sqlite_items::{Boxed, Items};

impl<'a> Cursor<'a> {
    /// A name that isn't among these.
    #[tactic(auto, unfolding(crate::specs::Rules::parameter, crate::specs::Words::sound))]
    pub fn parameter(&mut self, names: &Names) -> Result<Text, ParseError>
        ensures { Reads (read None (rules.parameter names.now) self.old) result self.new }
    {
        match self.peek() {
            Some(
                Token {
                    kind: Kind::Name(name),
                    at,
                    ..
                },
            ) => {
                if is_left_out(name) {
                    return Err(ParseError::Shown(Fault::LeftOut(*at)));
                }
                if names.has(name) {
                    return Err(ParseError::Shown(Fault::Syntax(*at)));
                }
                self.advance();
                Ok(name.clone()?)
            }
            _ => Err(ParseError::Unfit),
        }
    }

    /// A comma and one more.
    #[tactic(auto, unfolding(crate::specs::Rules::more_parameters))]
    pub fn more_parameters(&mut self, names: Names) -> Result<Names, ParseError>
        ensures { Reads (read None (rules.more_parameters names) self.old) result self.new }
    {
        self.take(Punct::Comma)?;
        let name = self.parameter(&names)?;
        Ok(names.put(name)?)
    }

    /// The name of a property.
    #[tactic(auto, unfolding(crate::specs::Rules::member_name))]
    fn member_name(&mut self) -> Result<Text, ParseError>
        ensures { Reads (read None rules.member_name self.old) result self.new }
    {
        let Some(token) = self.peek() else {
            return Err(ParseError::Unfit);
        };
        let Some(name) = member_text(self.alloc(), &token.kind)? else {
            return Err(ParseError::Unfit);
        };
        self.advance();
        Ok(name)
    }

    /// A property behind its `.`.
    #[tactic(auto, unfolding(crate::specs::Rules::member))]
    pub fn member(&mut self, room: u8, x: Operand) -> Result<Operand, ParseError>
        requires few { room ≤ 128 }
        requires within { x.depth.height < room }
        ensures value { Reads (read None (rules.member x) self.old) result self.new }
        ensures height { IfOk result (λ y. y.depth.height ≤ room) }
    {
        let name = self.member_name()?;
        Ok(member_node(self.alloc(), x, name)?)
    }

    /// An operand's `++` or `--`, if there is one.
    #[tactic(auto, unfolding(crate::specs::Rules::stepped_or_not, crate::specs::Words::takes, crate::specs::Words::sound))]
    pub fn stepped(&mut self, room: u8, x: Operand) -> Result<Operand, ParseError>
        requires few { room ≤ 128 }
        requires within { x.depth.height ≤ room }
        ensures value { Reads (read None (rules.stepped_or_not room x) self.old) result self.new }
        ensures height { IfOk result (λ y. y.depth.height ≤ room) }
    {
        let Some(token) = self.peek() else {
            return Ok(x);
        };
        if !self.at_postfix() {
            return Ok(x);
        }
        match x.target_flaw(room) {
            Some(fault) => Err(ParseError::Shown(fault)),
            None => {
                self.advance();
                let value = Expr::Step(step_op(&token.kind), false, x.value);
                Ok(node(self.alloc(), value, x.codes, x.at, x.depth)?)
            }
        }
    }

    /// Behind the operand of a prefix operator.
    #[tactic(auto, unfolding(crate::specs::Rules::prefix_end))]
    pub fn prefix_end(
        &mut self,
        room: u8,
        context: Context,
        token: &Token,
        x: Operand,
    ) -> Result<Operand, ParseError>
        requires few { room ≤ 128 }
        requires within { x.depth.height < room }
        ensures value { Reads (read None (rules.prefix_end context (Some token.now) x (operands.prefix_flaw token.now.kind x)) self.old) result self.new }
        ensures height { IfOk result (λ y. y.depth.height ≤ room) }
    {
        match x.prefix_flaw(&token.kind) {
            Some(fault) => Err(self.flaw_shown(context, fault)),
            None => {
                let value = prefixed(&token.kind, x.value);
                Ok(node(self.alloc(), value, x.codes, token.at, x.depth)?)
            }
        }
    }

    /// A node without parts, which is this token.
    pub fn leaf(
        &self,
        value: Expr,
        codes: Items<FnCode>,
        token: &Token,
    ) -> Result<Operand, ParseError>
        ensures value { Reads (read None (done (operands.leaf value codes (Some token.now))) self.now) result self.now }
        ensures height { IfOk result (λ x. x.depth.height ≡ 1) }
    {
        Ok(node(self.alloc(), value, codes, token.at, NOTHING)?)
    }

    /// A semicolon, or none where one is inserted.
    #[tactic(auto, unfolding(crate::specs::Rules::semi, crate::specs::Words::sign))]
    pub fn semicolon(&mut self) -> Result<(), ParseError>
        ensures { Reads (read None rules.semi self.old) result self.new }
    {
        if self.at(Punct::Semicolon) {
            self.advance();
            Ok(())
        } else if self.inserts() {
            Ok(())
        } else {
            Err(ParseError::Unfit)
        }
    }

    /// A `break` or `continue` behind its word.
    #[tactic(auto, unfolding(crate::specs::Rules::jump, crate::specs::Rules::ended))]
    pub fn jump(&mut self, stmt: Stmt, state: State, token: &Token) -> Result<Said, ParseError>
        ensures value { Reads (read None (rules.jump stmt state (Some token.now)) self.old) result self.new }
        ensures height { IfOk result (λ x. x.depth.height ≡ 1) }
    {
        let said = stmt_node(self.alloc(), stmt, state, token.at, NOTHING)?;
        if let Some(fault) = self.jump_label() {
            return Err(ParseError::Shown(fault));
        }
        self.semicolon()?;
        Ok(said)
    }

    /// The end of a statement that begins here, over parts with these levels.
    #[tactic(auto, unfolding(crate::specs::Rules::ended))]
    pub fn ended(
        &mut self,
        stmt: Stmt,
        state: State,
        at: u32,
        depth: Depth,
    ) -> Result<Said, ParseError>
        requires { depth.height < 255 }
        ensures value { Reads (read None (rules.ended stmt state at depth) self.old) result self.new }
        ensures height { IfOk result (λ x. x.depth.height ≡ depth.height + 1) }
    {
        let said = stmt_node(self.alloc(), stmt, state, at, depth)?;
        self.semicolon()?;
        Ok(said)
    }

    /// A property behind the expression in its brackets; the object begins here.
    #[tactic(auto, unfolding(crate::specs::Rules::indexed))]
    pub fn indexed(
        &mut self,
        value: Boxed<Expr>,
        at: u32,
        depth: Depth,
        y: Operand,
    ) -> Result<Operand, ParseError>
        requires left { depth.height < 255 }
        requires right { y.depth.height < 255 }
        ensures value { Reads (read None (rules.indexed value at depth y) self.old) result self.new }
        ensures height { IfOk result (λ z. z.depth.height ≡ max depth.height y.depth.height + 1) }
    {
        self.take(Punct::RightBracket)?;
        Ok(index_node(self.alloc(), value, at, depth, y)?)
    }

    /// A name before `in`, or before a token with which no expression goes on.
    #[tactic(auto, unfolding(crate::specs::Rules::lone_name, crate::specs::Words::sound))]
    pub fn named_alone(&mut self, codes: Items<FnCode>) -> Result<Operand, ParseError>
        requires { ahead.of ahead.is_name (first self.old None) ≡ true }
        ensures value { Reads (read None (rules.lone_name codes) self.old) result self.new }
        ensures height { IfOk result (λ x. x.depth.height ≡ 1) }
    {
        let Some(token) = self.peek() else {
            return Err(ParseError::Unfit);
        };
        let Kind::Name(name) = &token.kind else {
            return Err(ParseError::Unfit);
        };
        self.advance();
        if self.goes_on() {
            return Err(ParseError::Shown(Fault::Nesting(token.at)));
        }
        self.leaf(Expr::Name(name.clone()?), codes, token)
    }
}
