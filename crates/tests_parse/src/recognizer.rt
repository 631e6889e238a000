//! A recognizer of scripts that shares nothing with the parser: not its tokens' kinds, not its rules,
//! not its way.
//!
//! It has the grammar of docs/LANGUAGE.md as a text, and keeps for each word of a script all points of
//! the grammar at which the script can stand (Earley's way). The first word after which there is no
//! such point is the one that no script can have there.

use std::alloc::{AllocError, Global};
use std::ops::Range;

/// A rule on each line, its name first. What no line begins with is a word of the script: `NAME`,
/// `NUMBER`, `TEXT` and `PRIM` stand for those of their kind. A rule that can be empty has a line with
/// its name alone.
const GRAMMAR: &str = "Script
Script Declaration Script
Declaration Class
Declaration Interface
Declaration Import
Declaration Function
Declaration Variables
Declaration ;
Class Final class NAME Bases { Members }
Final
Final final
Bases
Bases : NAME MoreNames
MoreNames
MoreNames , NAME MoreNames
Members
Members Member Members
Member Access Type NAME MoreNames ;
Member Access Type NAME Parameters Const Attributes Block
Member NAME Parameters { Super Statements }
Access
Access private
Access protected
Attributes
Attributes final Attributes
Attributes override Attributes
Super
Super super Arguments ;
Interface interface NAME Bases { Methods }
Methods
Methods Type NAME Parameters Const ; Methods
Import import Type NAME Parameters from TEXT ;
Function Type NAME Parameters Block
Variables Type NAME Initializer MoreVariables ;
MoreVariables
MoreVariables , NAME Initializer MoreVariables
Initializer
Initializer = Assign
Initializer Arguments
Type Const Base Handle
Const
Const const
Base PRIM
Base void
Base NAME
Handle
Handle @ Const
Parameters ( ParameterList )
ParameterList
ParameterList void
ParameterList Parameter MoreParameters
MoreParameters
MoreParameters , Parameter MoreParameters
Parameter Type Reference Named
Reference
Reference & Direction
Direction
Direction in
Direction out
Direction inout
Named
Named NAME
Arguments ( List )
List
List Assign MoreList
MoreList
MoreList , Assign MoreList
Block { Statements }
Statements
Statements Statement Statements
Statement Block
Statement Variables
Statement Value ;
Statement break ;
Statement continue ;
Statement return Value ;
Statement if ( Assign ) Statement Else
Statement while ( Assign ) Statement
Statement do Statement while ( Assign ) ;
Statement for ( Start Value ; List ) Statement
Else
Else else Statement
Start Variables
Start Value ;
Value
Value Assign
Assign Cond
Assign Cond AssignOperator Assign
AssignOperator =
AssignOperator +=
AssignOperator -=
AssignOperator *=
AssignOperator /=
AssignOperator %=
AssignOperator &=
AssignOperator |=
AssignOperator ^=
AssignOperator <<=
AssignOperator >>=
AssignOperator >>>=
Cond Binary
Cond Binary ? Assign : Assign
Binary Unary
Binary Binary BinaryOperator Unary
BinaryOperator *
BinaryOperator /
BinaryOperator %
BinaryOperator +
BinaryOperator -
BinaryOperator <<
BinaryOperator >>
BinaryOperator >>>
BinaryOperator &
BinaryOperator ^
BinaryOperator |
BinaryOperator <
BinaryOperator <=
BinaryOperator >
BinaryOperator >=
BinaryOperator ==
BinaryOperator !=
BinaryOperator is
BinaryOperator !is
BinaryOperator xor
BinaryOperator ^^
BinaryOperator &&
BinaryOperator and
BinaryOperator ||
BinaryOperator or
Unary PrefixOperator Unary
Unary Post
PrefixOperator !
PrefixOperator not
PrefixOperator -
PrefixOperator +
PrefixOperator ~
PrefixOperator @
PrefixOperator ++
PrefixOperator --
Post Primary
Post Post ++
Post Post --
Post Post . NAME
Post Post . NAME Arguments
Primary NUMBER
Primary true
Primary false
Primary null
Primary this
Primary NAME
Primary NAME Arguments
Primary NAME :: NAME
Primary NAME :: NAME Arguments
Primary cast < Type > ( Assign )
Primary PRIM ( Assign )
Primary ( Assign )";

/// The words that name primitive types.
const PRIMITIVES: &[&str] = &[
    "int8", "int16", "int", "int32", "int64", "uint8", "uint16", "uint", "uint32", "uint64", "bool",
];

/// The reserved words that the grammar does not use.
const UNUSED: &[&str] = &[
    "auto",
    "float",
    "double",
    "enum",
    "typedef",
    "funcdef",
    "namespace",
    "switch",
    "case",
    "default",
    "mixin",
];

/// The most points of the grammar at one word.
const MOST_POINTS: usize = 100_000;

/// A place in the text of the grammar's rules.
#[derive(Clone, Copy, PartialEq, Eq)]
enum Cell {
    /// A word of the script, by number.
    Word(usize),
    /// A rule, by number.
    Rule(usize),
    /// The end of a line for this rule.
    End(usize),
}

/// A rule: its name, and its lines, by number.
#[derive(Clone, Copy)]
struct Rule {
    name: &'static str,
    first: usize,
    behind: usize,
}

/// The grammar, cell by cell, and the first cell of each line.
#[derive(Drop)]
pub struct Grammar {
    rules: Vec<Rule>,
    words: Vec<&'static str>,
    cells: Vec<Cell>,
    lines: Vec<usize>,
}

/// The place of a word in a list.
fn number_of(list: &[&'static str], word: &str) -> Option<usize> {
    list.iter().position(|known| *known == word)
}

/// The first word of a line.
fn name_of(line: &'static str) -> &'static str {
    line.split_whitespace().next().unwrap_or("")
}

impl Grammar {
    /// A grammar with no rules.
    pub fn new(alloc: Global) -> Grammar {
        Grammar {
            rules: Vec::new(alloc),
            words: Vec::new(alloc),
            cells: Vec::new(alloc),
            lines: Vec::new(alloc),
        }
    }

    /// Takes the grammar of the text.
    pub fn fill(&mut self) -> Result<(), AllocError> {
        for (i, line) in GRAMMAR.lines().enumerate() {
            self.add_name(i, name_of(line))?;
        }
        for line in GRAMMAR.lines() {
            self.add_line(line)?;
        }
        Ok(())
    }

    fn rule(&self, name: &str) -> Option<usize> {
        self.rules.iter().position(|rule| rule.name == name)
    }

    /// Adds the line of this number to those of its rule. The lines of a rule stand together.
    fn add_name(&mut self, line: usize, name: &'static str) -> Result<(), AllocError> {
        let behind = line.wrapping_add(1);
        if let Some(last) = self.rules.last_mut()
            && last.name == name
        {
            last.behind = behind;
            return Ok(());
        }
        let first = line;
        self.rules.push(Rule {
            name,
            first,
            behind,
        })?;
        Ok(())
    }

    fn add_line(&mut self, line: &'static str) -> Result<(), AllocError> {
        self.lines.push(self.cells.len())?;
        for name in line.split_whitespace().skip(1) {
            self.add_cell(name)?;
        }
        let number = self.rule(name_of(line)).unwrap_or(0);
        self.cells.push(Cell::End(number))?;
        Ok(())
    }

    fn add_cell(&mut self, name: &'static str) -> Result<(), AllocError> {
        let cell = match (self.rule(name), number_of(&self.words, name)) {
            (Some(rule), _) => Cell::Rule(rule),
            (None, Some(word)) => Cell::Word(word),
            (None, None) => {
                self.words.push(name)?;
                Cell::Word(self.words.len().saturating_sub(1))
            }
        };
        self.cells.push(cell)?;
        Ok(())
    }

    /// The number that the grammar has for a word of a script, if it has one.
    pub fn word(&self, word: &str) -> Option<usize> {
        let class = match word.as_bytes() {
            [b'"', ..] => "TEXT",
            [b'0'..=b'9', ..] => "NUMBER",
            _ if number_of(PRIMITIVES, word).is_some() => "PRIM",
            _ => word,
        };
        match (number_of(&self.words, class), word.as_bytes()) {
            (Some(number), _) => Some(number),
            (None, [b'a'..=b'z' | b'A'..=b'Z' | b'_', ..]) if number_of(UNUSED, word).is_none() => {
                number_of(&self.words, "NAME")
            }
            _ => None,
        }
    }

    /// The first cells of a rule's lines.
    fn starts(&self, rule: usize) -> &[usize] {
        let Some(called) = self.rules.get(rule) else {
            return &[];
        };
        self.lines.get(called.first..called.behind).unwrap_or(&[])
    }
}

/// A point where a script can stand: a cell of the grammar, and the number of words that stood before
/// its line began.
#[derive(Clone, Copy)]
struct Point {
    cell: usize,
    origin: usize,
}

impl Point {
    /// The point one cell further.
    fn behind(self) -> Point {
        Point {
            cell: self.cell.wrapping_add(1),
            origin: self.origin,
        }
    }
}

/// The points at each word of a script read so far, and at its end, one set after the other.
#[derive(Drop)]
pub struct Chart {
    alloc: Global,
    points: Vec<Point>,
    /// The number of points up to the end of each set.
    ends: Vec<usize>,
    /// For each point the last round in which it was added.
    added: Vec<usize>,
    round: usize,
}

impl Chart {
    /// A chart without points.
    pub fn new(alloc: Global) -> Chart {
        Chart {
            alloc,
            points: Vec::new(alloc),
            ends: Vec::new(alloc),
            added: Vec::new(alloc),
            round: 1,
        }
    }

    /// Takes the points at which every script of fewer words than `words` begins.
    pub fn start(&mut self, grammar: &Grammar, words: usize) -> Result<(), AllocError> {
        self.added = vec![in self.alloc; 0; grammar.cells.len().wrapping_mul(words)]?;
        for cell in grammar.starts(0) {
            let cell = *cell;
            self.add(grammar, Point { cell, origin: 0 })?;
        }
        self.close(grammar, 0)
    }

    /// The number of points up to the end of the first `sets` sets.
    fn end_of(&self, sets: usize) -> usize {
        match sets.checked_sub(1) {
            Some(last) => self.ends.get(last).copied().unwrap_or(0),
            None => 0,
        }
    }

    /// The numbers of the points of the set of this number; of none if it is not closed.
    fn set(&self, number: usize) -> Range<usize> {
        self.end_of(number)..self.end_of(number.wrapping_add(1))
    }

    fn last(&self) -> Range<usize> {
        self.set(self.ends.len().wrapping_sub(1))
    }

    /// Adds a point to those of this round, once.
    fn add(&mut self, grammar: &Grammar, point: Point) -> Result<(), AllocError> {
        let start = grammar.cells.len().wrapping_mul(point.origin);
        if let Some(round) = self.added.get_mut(start.wrapping_add(point.cell))
            && *round != self.round
        {
            *round = self.round;
            self.points.push(point)?;
        }
        Ok(())
    }

    /// Adds the points at which a rule begins, and the one after it if it can be empty.
    fn enter(&mut self, grammar: &Grammar, rule: usize, point: Point) -> Result<(), AllocError> {
        let origin = self.ends.len();
        for cell in grammar.starts(rule) {
            let cell = *cell;
            self.add(grammar, Point { cell, origin })?;
            if grammar.cells.get(cell) == Some(&Cell::End(rule)) {
                self.add(grammar, point.behind())?;
            }
        }
        Ok(())
    }

    /// Adds the points after a rule, where it was called in this set.
    fn leave(&mut self, grammar: &Grammar, rule: usize, origin: usize) -> Result<(), AllocError> {
        for i in self.set(origin) {
            let Some(caller) = self.points.get(i).copied() else {
                break;
            };
            if grammar.cells.get(caller.cell) == Some(&Cell::Rule(rule)) {
                self.add(grammar, caller.behind())?;
            }
        }
        Ok(())
    }

    /// Closes the set that begins at this point with all points that follow from its own.
    fn close(&mut self, grammar: &Grammar, from: usize) -> Result<(), AllocError> {
        for i in 0..MOST_POINTS {
            let Some(point) = self.points.get(from.wrapping_add(i)).copied() else {
                break;
            };
            match grammar.cells.get(point.cell) {
                Some(Cell::Rule(rule)) => self.enter(grammar, *rule, point)?,
                Some(Cell::End(rule)) => self.leave(grammar, *rule, point.origin)?,
                _ => {}
            }
        }
        self.ends.push(self.points.len())?;
        self.round = self.round.wrapping_add(1);
        Ok(())
    }

    /// Adds the points after a word, where the last set has it.
    fn step(&mut self, grammar: &Grammar, word: usize) -> Result<(), AllocError> {
        for i in self.last() {
            let Some(point) = self.points.get(i).copied() else {
                break;
            };
            if grammar.cells.get(point.cell) == Some(&Cell::Word(word)) {
                self.points.push(point.behind())?;
            }
        }
        Ok(())
    }

    /// Reads a word. Where no script can have it the answer is no, and nothing changes.
    pub fn read(&mut self, grammar: &Grammar, word: Option<usize>) -> Result<bool, AllocError> {
        let from = self.points.len();
        if let Some(word) = word {
            self.step(grammar, word)?;
        }
        if self.points.len() == from {
            return Ok(false);
        }
        self.close(grammar, from)?;
        Ok(true)
    }

    /// Whether the words read so far are a script.
    pub fn is_script(&self, grammar: &Grammar) -> bool {
        for i in self.last() {
            if let Some(Point { cell, origin: 0 }) = self.points.get(i).copied()
                && grammar.cells.get(cell) == Some(&Cell::End(0))
            {
                return true;
            }
        }
        false
    }

    /// Forgets all words but the first `words`.
    pub fn forget(&mut self, words: usize) {
        self.ends.truncate(words.saturating_add(1));
        let end = self.end_of(self.ends.len());
        self.points.truncate(end);
    }
}
