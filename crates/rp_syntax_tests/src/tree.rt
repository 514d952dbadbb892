//! The tree of a clause as a text, in the form in which Rust prints values.
use rp_tree::{
    Aggregate, AggregateFunction, Clause, Column, Counted, Definition, Expr, Measure, Navigation,
    Operation, Order, Pattern, Skip, Union,
};
use std::alloc::{AllocError, Global};
use std::fmt::Debug;

/// The text of a clause's tree.
pub fn tree_text(alloc: Global, clause: &Clause) -> Result<String, AllocError> {
    let mut written = Written {
        alloc,
        text: String::new(alloc),
        is_cut: false,
    };
    written.clause(clause);
    if written.is_cut {
        return Err(AllocError);
    }
    Ok(written.text)
}

/// What is written of a tree. Once memory is refused, no more is.
#[derive(Drop)]
struct Written {
    alloc: Global,
    text: String,
    is_cut: bool,
}

impl Written {
    fn push(&mut self, piece: &str) {
        if !self.is_cut && self.text.push_str(piece).is_err() {
            self.is_cut = true;
        }
    }

    /// A piece, and behind it a value that prints itself.
    fn value<T: Debug>(&mut self, piece: &str, value: &T) {
        match format!(in self.alloc; "{piece}{value:?}") {
            Ok(text) => self.push(text.as_str()),
            Err(_) => self.is_cut = true,
        }
    }

    /// What is between a part of a list and the one before it.
    fn between(&mut self, is_first: bool) {
        if !is_first {
            self.push(", ");
        }
    }

    fn clause(&mut self, clause: &Clause) {
        self.value("Clause { text: ", &clause.text);
        self.value(", partition: ", &clause.partition);
        self.push(", order: [");
        self.orders(clause.order.as_slice());
        self.push("], measures: [");
        self.measures(clause.measures.as_slice());
        self.value("], rows: ", &clause.rows);
        self.push(", skip: ");
        self.skip(&clause.skip);
        self.push(", pattern: ");
        self.pattern(&clause.pattern);
        self.push(", subsets: [");
        self.unions(clause.subsets.as_slice());
        self.push("], definitions: [");
        self.definitions(clause.definitions.as_slice());
        self.push("] }");
    }

    fn orders(&mut self, orders: &[Order]) {
        let mut is_first = true;
        for order in orders {
            self.between(is_first);
            is_first = false;
            self.value("Order { name: ", &order.name);
            self.value(", descending: ", &order.descending);
            self.push(" }");
        }
    }

    fn measures(&mut self, measures: &[Measure]) {
        let mut is_first = true;
        for measure in measures {
            self.between(is_first);
            is_first = false;
            self.value("Measure { at: ", &measure.at);
            self.push(", expr: ");
            self.expr(&measure.expr);
            self.value(", name: ", &measure.name);
            self.push(" }");
        }
    }

    fn unions(&mut self, unions: &[Union]) {
        let mut is_first = true;
        for union in unions {
            self.between(is_first);
            is_first = false;
            self.value("Union { name: ", &union.name);
            self.value(", members: ", &union.members);
            self.push(" }");
        }
    }

    fn definitions(&mut self, definitions: &[Definition]) {
        let mut is_first = true;
        for definition in definitions {
            self.between(is_first);
            is_first = false;
            self.value("Definition { name: ", &definition.name);
            self.value(", at: ", &definition.at);
            self.push(", expr: ");
            self.expr(&definition.expr);
            self.push(" }");
        }
    }

    fn skip(&mut self, skip: &Skip) {
        match skip {
            Skip::PastLastRow => self.push("PastLastRow"),
            Skip::ToNextRow => self.push("ToNextRow"),
            Skip::ToFirst(name) => {
                self.value("ToFirst(", name);
                self.push(")");
            }
            Skip::ToLast(name) => {
                self.value("ToLast(", name);
                self.push(")");
            }
        }
    }

    #[cycle(parts)]
    fn pattern(&mut self, pattern: &Pattern) {
        match pattern {
            Pattern::Variable(name) => self.value("Variable(", name),
            Pattern::Empty => return self.push("Empty"),
            Pattern::PartitionStart => return self.push("PartitionStart"),
            Pattern::PartitionEnd => return self.push("PartitionEnd"),
            Pattern::Concatenation(parts) => {
                self.push("Concatenation([");
                self.patterns(parts.as_slice());
                self.push("]");
            }
            Pattern::Alternation(parts) => {
                self.push("Alternation([");
                self.patterns(parts.as_slice());
                self.push("]");
            }
            Pattern::Permute { at, parts } => {
                self.value("Permute { at: ", at);
                self.push(", parts: [");
                self.patterns(parts.as_slice());
                return self.push("] }");
            }
            Pattern::Exclusion { at, body } => {
                self.value("Exclusion { at: ", at);
                self.push(", body: ");
                self.pattern(body.as_ref());
                return self.push(" }");
            }
            Pattern::Quantified { body, quantifier } => {
                self.push("Quantified { body: ");
                self.pattern(body.as_ref());
                self.value(", quantifier: ", quantifier);
                return self.push(" }");
            }
        }
        self.push(")");
    }

    #[cycle(parts)]
    fn patterns(&mut self, patterns: &[Pattern]) {
        let mut is_first = true;
        for pattern in patterns {
            self.between(is_first);
            is_first = false;
            self.pattern(pattern);
        }
    }

    #[cycle(terms)]
    fn expr(&mut self, expr: &Expr) {
        match expr {
            Expr::Number { at, value } => self.literal("Number { at: ", *at, ", value: ", value),
            Expr::Text { at, text } => self.literal("Text { at: ", *at, ", text: ", text),
            Expr::Navigation(path) => return self.path(path),
            Expr::Aggregate(aggregate) => return self.aggregate(aggregate),
            Expr::MatchNumber(at) => return self.call("MatchNumber(", *at),
            Expr::Classifier(at) => return self.call("Classifier(", *at),
            Expr::Negative { at, body } => self.under("Negative { at: ", *at, body.as_ref()),
            Expr::Not { at, body } => self.under("Not { at: ", *at, body.as_ref()),
            Expr::IsNull { at, body, negated } => {
                self.under("IsNull { at: ", *at, body.as_ref());
                self.value(", negated: ", negated);
            }
            Expr::Comparison {
                left,
                operation,
                right,
            } => {
                self.push("Comparison { left: ");
                self.expr(left.as_ref());
                self.value(", operation: ", operation);
                self.push(", right: ");
                self.expr(right.as_ref());
            }
            Expr::FromLeft { first, rest } => {
                self.push("FromLeft { first: ");
                self.expr(first.as_ref());
                self.operands(rest.as_slice());
            }
            Expr::FromRight { first, rest } => {
                self.push("FromRight { first: ");
                self.expr(first.as_ref());
                self.operands(rest.as_slice());
            }
        }
        self.push(" }");
    }

    /// A number or a text behind its place.
    fn literal<T: Debug>(&mut self, piece: &str, at: usize, name: &str, value: &T) {
        self.value(piece, &at);
        self.value(name, value);
    }

    /// A call without arguments.
    fn call(&mut self, piece: &str, at: usize) {
        self.value(piece, &at);
        self.push(")");
    }

    /// An expression behind the place of what belongs to it.
    #[cycle(terms)]
    fn under(&mut self, piece: &str, at: usize, body: &Expr) {
        self.value(piece, &at);
        self.push(", body: ");
        self.expr(body);
    }

    /// The operands behind the first one, each with its operator.
    #[cycle(terms)]
    fn operands(&mut self, operands: &[(Operation, Expr)]) {
        self.push(", rest: [");
        let mut is_first = true;
        for (operation, operand) in operands {
            self.between(is_first);
            is_first = false;
            self.value("(", operation);
            self.push(", ");
            self.expr(operand);
            self.push(")");
        }
        self.push("]");
    }

    fn path(&mut self, path: &Navigation) {
        self.push("Navigation(");
        self.navigation(path);
        self.push(")");
    }

    fn navigation(&mut self, path: &Navigation) {
        match path {
            Navigation::Column(column) => {
                self.push("Column(");
                self.column(column);
                self.push(")");
            }
            Navigation::Move {
                movement,
                at,
                argument,
                offset,
            } => {
                self.value("Move { movement: ", movement);
                self.value(", at: ", at);
                self.push(", argument: ");
                self.navigation(argument.as_ref());
                self.value(", offset: ", offset);
                self.push(" }");
            }
        }
    }

    fn column(&mut self, column: &Column) {
        self.value("Column { qualifier: ", &column.qualifier);
        self.value(", name: ", &column.name);
        self.push(" }");
    }

    fn aggregate(&mut self, aggregate: &Aggregate) {
        self.value("Aggregate(Aggregate { scope: ", &aggregate.scope);
        self.value(", at: ", &aggregate.at);
        self.push(", function: ");
        match &aggregate.function {
            AggregateFunction::Count(counted) => self.counted(counted),
            AggregateFunction::Sum(column) => self.over("Sum(", column),
            AggregateFunction::Min(column) => self.over("Min(", column),
            AggregateFunction::Max(column) => self.over("Max(", column),
        }
        self.push(") })");
    }

    fn counted(&mut self, counted: &Counted) {
        match counted {
            Counted::Rows => self.push("Count(Rows"),
            Counted::RowsOf(name) => {
                self.value("Count(RowsOf(", name);
                self.push(")");
            }
            Counted::Column(column) => {
                self.over("Count(Column(", column);
                self.push(")");
            }
        }
    }

    fn over(&mut self, piece: &str, column: &Column) {
        self.push(piece);
        self.column(column);
    }
}
