//! Expressions from the postfix operators up (ECMA-262 5.1, 11.3 to 11.14).
ghost use Rattle.std.specs.Prelude.{◌≡◌, ◌≤◌, ◌<◌, ◌-◌, ◌+◌, Some, None, IfOk, true};
ghost use Rattle.grammar.specs.Grammar.{first};
ghost use Rattle.grammar.specs.Reading.{read};
ghost use Rattle.js_lexer.specs.declared.token.Punct.TheVariants as p;
ghost use Rattle.js_nodes.specs.Next as ahead;
ghost use Rattle.js_nodes.specs.Operators as operators;
ghost use Rattle.js_nodes.specs.Operands as operands;
ghost use Rattle.js_parser.specs.Expressions as expressions;
ghost use Rattle.js_parser.specs.Sources.{level};
ghost use Rattle.js_cursor.specs.Reads.{Reads, Unfits};
ghost use Rattle.js_parser.specs.Nests.{Nests};

use crate::rules::{Answer, Ask, Rules};
use js_cursor::Cursor;
use js_lexer::Punct;
use js_nodes::nodes::{assign_node, binary_node, comma_node, cond_node};
use js_nodes::{Context, Depth, Fault, Operand, ParseError};
use js_tree::{Expr, FnCode};
use sqlite_items::{Boxed, Items};

impl<F: Fn(&mut Cursor<'_>, u8, Ask) -> Result<Answer, ParseError>> Rules<F> {
    #[tactic(auto, unfolding(crate::specs::Expressions::postfix))]
    pub(crate) fn postfix(
        &self,
        room: u8,
        codes: Items<FnCode>,
        tokens: &mut Cursor<'_>,
    ) -> Result<Operand, ParseError>
        requires nests { Nests (room - 1) (F.pre self.now.below) (F.post self.now.below) }
        requires few { room ≤ 128 }
        requires some { 0 < room }
        ensures value { Reads (read None (expressions.postfix room (level (room - 1)) codes) tokens.old) result tokens.new }
        ensures height { IfOk result (λ x. x.depth.height ≤ room) }
    {
        let x = self.left(room, codes, tokens)?;
        tokens.stepped(room, x)
    }

    #[tactic(auto, unfolding(crate::specs::Expressions::prefix, js_cursor::specs::Words::deeper, js_cursor::specs::Words::sound))]
    pub(crate) fn prefix(
        &self,
        context: Context,
        room: u8,
        codes: Items<FnCode>,
        tokens: &mut Cursor<'_>,
    ) -> Result<Operand, ParseError>
        requires nests { Nests (room - 1) (F.pre self.now.below) (F.post self.now.below) }
        requires few { room ≤ 128 }
        requires some { 0 < room }
        requires operator { ahead.of operators.is_prefix (first tokens.old None) ≡ true }
        ensures value { Reads (read None (expressions.prefix room (level (room - 1)) context codes) tokens.old) result tokens.new }
        ensures height { IfOk result (λ x. x.depth.height ≤ room) }
    {
        let Some(token) = tokens.peek() else {
            return Err(ParseError::Unfit);
        };
        if room <= 1 {
            return Err(ParseError::Shown(Fault::Nesting(token.at)));
        }
        tokens.advance();
        let x = self.binary_below(context, room - 1, 0, codes, tokens)?;
        tokens.prefix_end(room, context, token, x)
    }

    #[tactic(auto, using(crate::proofs::DecidedMay::prefix_may), unfolding(crate::specs::Expressions::unary))]
    pub(crate) fn unary(
        &self,
        context: Context,
        room: u8,
        codes: Items<FnCode>,
        tokens: &mut Cursor<'_>,
    ) -> Result<Operand, ParseError>
        requires nests { Nests (room - 1) (F.pre self.now.below) (F.post self.now.below) }
        requires few { room ≤ 128 }
        requires some { 0 < room }
        ensures value { Reads (read None (expressions.unary room (level (room - 1)) context codes) tokens.old) result tokens.new }
        ensures height { IfOk result (λ x. x.depth.height ≤ room) }
    {
        if tokens.at_prefix() {
            self.prefix(context, room, codes, tokens)
        } else {
            self.postfix(room, codes, tokens)
        }
    }

    /// One operator and operand more.
    #[tactic(auto, unfolding(crate::specs::Expressions::operation, js_cursor::specs::Words::takes, js_cursor::specs::Words::sound))]
    pub(crate) fn operation(
        &self,
        context: Context,
        room: u8,
        n: u8,
        x: Operand,
        tokens: &mut Cursor<'_>,
    ) -> Result<Operand, ParseError>
        requires nests { Nests (room - 1) (F.pre self.now.below) (F.post self.now.below) }
        requires few { room ≤ 128 }
        requires some { 0 < room }
        requires levels { n ≤ 10 }
        requires operator { operands.binds context (first tokens.old None) ≡ n }
        requires one { 0 < n }
        ensures value { Reads (read None (expressions.operation room (level (room - 1)) context n x) tokens.old) result tokens.new }
        ensures height { IfOk result (λ y. y.depth.height ≤ room) }
    {
        let Some(token) = tokens.peek() else {
            return Err(ParseError::Unfit);
        };
        match x.depth.level_flaw(room) {
            Some(fault) => Err(ParseError::Shown(fault)),
            None => {
                tokens.advance();
                let y = self.binary_below(context, room - 1, n - 1, x.codes, tokens)?;
                Ok(binary_node(tokens.alloc(), &token.kind, x.value, x.at, x.depth, y)?)
            }
        }
    }

    #[cycle(rules)]
    pub(crate) fn binary_more(
        &self,
        context: Context,
        room: u8,
        n: u8,
        codes: Items<FnCode>,
        tokens: &mut Cursor<'_>,
    ) -> Result<Operand, ParseError>
        requires nests { Nests (room - 1) (F.pre self.now.below) (F.post self.now.below) }
        requires few { room ≤ 128 }
        requires some { 0 < room }
        requires levels { n ≤ 10 }
        requires one { 0 < n }
        ensures value { Reads (read None (expressions.binary room (level (room - 1)) context n codes) tokens.old) result tokens.new }
        ensures height { IfOk result (λ x. x.depth.height ≤ room) }
    {
        let mut x = self.binary_some(context, room, n - 1, codes, tokens)?;
        'operations: while tokens.binds(context) == n {
            x = self.operation(context, room, n, x, tokens)?;
        }
        Ok(x)
    }

    #[cycle(rules)]
    pub(crate) fn binary_some(
        &self,
        context: Context,
        room: u8,
        n: u8,
        codes: Items<FnCode>,
        tokens: &mut Cursor<'_>,
    ) -> Result<Operand, ParseError>
        requires nests { Nests (room - 1) (F.pre self.now.below) (F.post self.now.below) }
        requires few { room ≤ 128 }
        requires some { 0 < room }
        requires levels { n ≤ 10 }
        ensures value { Reads (read None (expressions.binary room (level (room - 1)) context n codes) tokens.old) result tokens.new }
        ensures height { IfOk result (λ x. x.depth.height ≤ room) }
    {
        if n == 0 {
            self.unary(context, room, codes, tokens)
        } else {
            self.binary_more(context, room, n, codes, tokens)
        }
    }

    /// Operands whose operators bind at least so tightly.
    pub(crate) fn binary(
        &self,
        context: Context,
        room: u8,
        n: u8,
        codes: Items<FnCode>,
        tokens: &mut Cursor<'_>,
    ) -> Result<Operand, ParseError>
        requires nests { 0 < room → Nests (room - 1) (F.pre self.now.below) (F.post self.now.below) }
        requires few { room ≤ 128 }
        requires levels { n ≤ 10 }
        ensures value { Reads (read None ((level room).binary context n codes) tokens.old) result tokens.new }
        ensures height { IfOk result (λ x. x.depth.height ≤ room) }
    {
        if room == 0 {
            return Err(tokens.operand_too_deep());
        }
        self.binary_some(context, room, n, codes, tokens)
    }

    /// The `? :` behind an operand, if there is one.
    #[tactic(auto, unfolding(crate::specs::Expressions::chosen, js_cursor::specs::Words::takes, js_cursor::specs::Words::sound))]
    pub(crate) fn chosen(
        &self,
        context: Context,
        room: u8,
        x: Operand,
        tokens: &mut Cursor<'_>,
    ) -> Result<Operand, ParseError>
        requires nests { Nests (room - 1) (F.pre self.now.below) (F.post self.now.below) }
        requires few { room ≤ 128 }
        requires some { 0 < room }
        requires within { x.depth.height ≤ room }
        ensures value { Reads (read None (expressions.chosen room (level (room - 1)) context x) tokens.old) result tokens.new }
        ensures height { IfOk result (λ y. y.depth.height ≤ room) }
    {
        if !tokens.at(Punct::Question) {
            return Ok(x);
        }
        match x.depth.level_flaw(room) {
            Some(fault) => Err(ParseError::Shown(fault)),
            None => {
                tokens.advance();
                self.branches(context, room, x, tokens)
            }
        }
    }

    /// What stands behind the `?` of a conditional.
    #[tactic(auto, unfolding(crate::specs::Expressions::branches))]
    pub(crate) fn branches(
        &self,
        context: Context,
        room: u8,
        x: Operand,
        tokens: &mut Cursor<'_>,
    ) -> Result<Operand, ParseError>
        requires nests { Nests (room - 1) (F.pre self.now.below) (F.post self.now.below) }
        requires few { room ≤ 128 }
        requires some { 0 < room }
        requires within { x.depth.height < room }
        ensures value { Reads (read None (expressions.branches (level (room - 1)) context x) tokens.old) result tokens.new }
        ensures height { IfOk result (λ y. y.depth.height ≤ room) }
    {
        let y = self.assign_below(context.middle(), room - 1, x.codes, tokens)?;
        tokens.take(Punct::Colon)?;
        let depth = x.depth.both(y.depth);
        self.other_branch(
            context, room, x.value, x.at, depth, y.value, y.codes, tokens,
        )
    }

    /// What stands behind the `:` of a conditional.
    #[tactic(auto, unfolding(crate::specs::Expressions::other_branch))]
    fn other_branch(
        &self,
        context: Context,
        room: u8,
        test: Boxed<Expr>,
        at: u32,
        depth: Depth,
        middle: Boxed<Expr>,
        codes: Items<FnCode>,
        tokens: &mut Cursor<'_>,
    ) -> Result<Operand, ParseError>
        requires nests { Nests (room - 1) (F.pre self.now.below) (F.post self.now.below) }
        requires few { room ≤ 128 }
        requires some { 0 < room }
        requires within { depth.height < room }
        ensures value { Reads (read None (expressions.other_branch (level (room - 1)) context test at depth middle codes) tokens.old) result tokens.new }
        ensures height { IfOk result (λ y. y.depth.height ≤ room) }
    {
        let z = self.assign_below(context, room - 1, codes, tokens)?;
        Ok(cond_node(tokens.alloc(), test, at, depth, middle, z)?)
    }

    #[tactic(auto, unfolding(crate::specs::Expressions::conditional))]
    pub(crate) fn conditional(
        &self,
        context: Context,
        room: u8,
        codes: Items<FnCode>,
        tokens: &mut Cursor<'_>,
    ) -> Result<Operand, ParseError>
        requires nests { Nests (room - 1) (F.pre self.now.below) (F.post self.now.below) }
        requires few { room ≤ 128 }
        requires some { 0 < room }
        ensures value { Reads (read None (expressions.conditional room (level (room - 1)) context codes) tokens.old) result tokens.new }
        ensures height { IfOk result (λ x. x.depth.height ≤ room) }
    {
        let x = self.binary_some(context, room, 10, codes, tokens)?;
        self.chosen(context, room, x, tokens)
    }

    /// The assignment behind its target, if there is one.
    #[tactic(auto, unfolding(crate::specs::Expressions::assigned_or_not, js_cursor::specs::Words::takes, js_cursor::specs::Words::sound))]
    pub(crate) fn assigned(
        &self,
        context: Context,
        room: u8,
        x: Operand,
        tokens: &mut Cursor<'_>,
    ) -> Result<Operand, ParseError>
        requires nests { Nests (room - 1) (F.pre self.now.below) (F.post self.now.below) }
        requires few { room ≤ 128 }
        requires some { 0 < room }
        requires within { x.depth.height ≤ room }
        ensures value { Reads (read None (expressions.assigned_or_not room (level (room - 1)) context x) tokens.old) result tokens.new }
        ensures height { IfOk result (λ y. y.depth.height ≤ room) }
    {
        let Some(token) = tokens.peek() else {
            return Ok(x);
        };
        if !tokens.at_assignment() {
            return Ok(x);
        }
        match x.target_flaw(room) {
            Some(fault) => Err(ParseError::Shown(fault)),
            None => {
                tokens.advance();
                let y = self.assign_below(context, room - 1, x.codes, tokens)?;
                Ok(assign_node(tokens.alloc(), &token.kind, x.value, x.at, x.depth, y)?)
            }
        }
    }

    #[tactic(auto, unfolding(crate::specs::Expressions::assign))]
    pub(crate) fn assign_some(
        &self,
        context: Context,
        room: u8,
        codes: Items<FnCode>,
        tokens: &mut Cursor<'_>,
    ) -> Result<Operand, ParseError>
        requires nests { Nests (room - 1) (F.pre self.now.below) (F.post self.now.below) }
        requires few { room ≤ 128 }
        requires some { 0 < room }
        ensures value { Reads (read None (expressions.assign room (level (room - 1)) context codes) tokens.old) result tokens.new }
        ensures height { IfOk result (λ x. x.depth.height ≤ room) }
    {
        let x = self.conditional(context, room, codes, tokens)?;
        self.assigned(context, room, x, tokens)
    }

    /// An expression without commas.
    pub(crate) fn assign(
        &self,
        context: Context,
        room: u8,
        codes: Items<FnCode>,
        tokens: &mut Cursor<'_>,
    ) -> Result<Operand, ParseError>
        requires nests { 0 < room → Nests (room - 1) (F.pre self.now.below) (F.post self.now.below) }
        requires few { room ≤ 128 }
        ensures value { Reads (read None ((level room).assign context codes) tokens.old) result tokens.new }
        ensures height { IfOk result (λ x. x.depth.height ≤ room) }
    {
        if room == 0 {
            return Err(tokens.operand_too_deep());
        }
        self.assign_some(context, room, codes, tokens)
    }

    /// A comma and one expression more.
    #[tactic(auto, unfolding(crate::specs::Expressions::comma, js_cursor::specs::Words::takes, js_cursor::specs::Words::sound))]
    pub(crate) fn comma(
        &self,
        context: Context,
        room: u8,
        x: Operand,
        tokens: &mut Cursor<'_>,
    ) -> Result<Operand, ParseError>
        requires nests { Nests (room - 1) (F.pre self.now.below) (F.post self.now.below) }
        requires few { room ≤ 128 }
        requires some { 0 < room }
        requires sign { ahead.shows p.Comma (first tokens.old None) ≡ true }
        ensures value { Reads (read None (expressions.comma room (level (room - 1)) context x) tokens.old) result tokens.new }
        ensures height { IfOk result (λ y. y.depth.height ≤ room) }
    {
        match x.depth.level_flaw(room) {
            Some(fault) => Err(ParseError::Shown(fault)),
            None => {
                tokens.advance();
                let y = self.assign_below(context, room - 1, x.codes, tokens)?;
                Ok(comma_node(tokens.alloc(), x.value, x.at, x.depth, y)?)
            }
        }
    }

    #[tactic(auto, unfolding(crate::specs::Expressions::expr))]
    pub(crate) fn expr_some(
        &self,
        context: Context,
        room: u8,
        codes: Items<FnCode>,
        tokens: &mut Cursor<'_>,
    ) -> Result<Operand, ParseError>
        requires nests { Nests (room - 1) (F.pre self.now.below) (F.post self.now.below) }
        requires few { room ≤ 128 }
        requires some { 0 < room }
        ensures value { Reads (read None (expressions.expr room (level (room - 1)) context codes) tokens.old) result tokens.new }
        ensures height { IfOk result (λ x. x.depth.height ≤ room) }
    {
        let mut x = self.assign_some(context, room, codes, tokens)?;
        'commas: while tokens.at(Punct::Comma) {
            x = self.comma(context, room, x, tokens)?;
        }
        Ok(x)
    }

    /// An expression.
    pub(crate) fn expr(
        &self,
        context: Context,
        room: u8,
        codes: Items<FnCode>,
        tokens: &mut Cursor<'_>,
    ) -> Result<Operand, ParseError>
        requires nests { 0 < room → Nests (room - 1) (F.pre self.now.below) (F.post self.now.below) }
        requires few { room ≤ 128 }
        ensures value { Reads (read None ((level room).expr context codes) tokens.old) result tokens.new }
        ensures height { IfOk result (λ x. x.depth.height ≤ room) }
    {
        if room == 0 {
            return Err(tokens.operand_too_deep());
        }
        self.expr_some(context, room, codes, tokens)
    }
}
