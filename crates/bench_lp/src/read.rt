//! Linear programs in the part of CPLEX's LP format that glpsol and esolver read as well.
use crate::tokens::Token;
use anyhow::bail;
use std::alloc::Global;

/// A coefficient and its column, counted from 1, with the line where it stands.
#[derive(Clone, Copy, Drop)]
pub struct Term {
    pub coefficient: i64,
    pub column: u32,
    pub line: usize,
}

/// The terms of a row, and what their sum is at most, with the line where that stands.
#[derive(Drop)]
pub struct Line {
    pub terms: Vec<Term>,
    pub side: i64,
    pub line: usize,
}

/// A program as it is written: the terms of its goal, and its rows.
#[derive(Drop)]
pub struct Written {
    pub goal: Vec<Term>,
    pub rows: Vec<Line>,
}

// The greatest column that a file may name.
const COLUMNS: u32 = 1_000_000;

// Goes over the words from the first on.
#[derive(Drop)]
struct Words {
    list: Vec<Token>,
    at: usize,
}

impl Words {
    // The next word; empty behind the last.
    fn peek(&self) -> &str {
        match self.list.get(self.at) {
            Some(token) => token.word.as_str(),
            None => "",
        }
    }

    // The line of the next word, or of the last where there is none.
    fn line(&self) -> usize {
        match self.list.get(self.at) {
            Some(token) => token.line,
            None => match self.list.last() {
                Some(token) => token.line,
                None => 1,
            },
        }
    }

    fn advance(&mut self) {
        self.at = self.at.saturating_add(1);
    }

    // Takes the word that has to come next.
    fn take(&mut self, word: &str) -> anyhow::Result<()> {
        if self.peek() != word {
            bail!("line {}: '{word}' has to stand here", self.line());
        }
        self.advance();
        Ok(())
    }

    // Takes the name of a row, which ends with a colon.
    fn take_name(&mut self) -> anyhow::Result<()> {
        let word = self.peek();
        if word.len() < 2 || !word.ends_with(':') {
            bail!(
                "line {}: a name with a colon has to stand here",
                self.line()
            );
        }
        self.advance();
        Ok(())
    }

    // Takes a whole number.
    fn take_number(&mut self) -> anyhow::Result<i64> {
        match self.peek().parse() {
            Ok(number) => {
                self.advance();
                Ok(number)
            }
            Err(_) => bail!("line {}: a whole number has to stand here", self.line()),
        }
    }

    // Takes the name of a column.
    fn take_column(&mut self) -> anyhow::Result<u32> {
        if let Some(digits) = self.peek().strip_prefix('x') {
            if let Ok(column) = digits.parse() {
                if 1 <= column && column <= COLUMNS {
                    self.advance();
                    return Ok(column);
                }
            }
        }
        bail!(
            "line {}: x and a number from 1 to {COLUMNS} has to stand here",
            self.line()
        )
    }

    // Takes a term, whose sign may be missing at the first.
    fn take_term(&mut self, first: bool) -> anyhow::Result<Term> {
        let negative = self.peek() == "-";
        if negative || self.peek() == "+" {
            self.advance();
        } else if !first {
            bail!("line {}: a sign has to stand here", self.line());
        }
        let line = self.line();
        let size = self.take_number()?;
        let column = self.take_column()?;
        if size < 0 {
            bail!("line {line}: the sign stands before a blank");
        }
        Ok(Term {
            coefficient: if negative { -size } else { size },
            column,
            line,
        })
    }

    // Takes the terms before the word `end`, at least one.
    fn take_terms(&mut self, alloc: Global, end: &str) -> anyhow::Result<Vec<Term>> {
        let mut terms = Vec::new(alloc);
        for _ in 0..self.list.len() {
            if !terms.is_empty() && self.peek() == end {
                return Ok(terms);
            }
            terms.push(self.take_term(terms.is_empty())?)?;
        }
        bail!("line {}: '{end}' is missing", self.line())
    }

    // Takes a row.
    fn take_row(&mut self, alloc: Global) -> anyhow::Result<Line> {
        self.take_name()?;
        let terms = self.take_terms(alloc, "<=")?;
        self.take("<=")?;
        let line = self.line();
        let side = self.take_number()?;
        Ok(Line { terms, side, line })
    }

    // Takes rows up to the end of the file.
    fn take_rows(&mut self, alloc: Global) -> anyhow::Result<Vec<Line>> {
        let mut rows = Vec::new(alloc);
        for _ in 0..self.list.len() {
            if self.peek() == "End" {
                return Ok(rows);
            }
            rows.push(self.take_row(alloc)?)?;
        }
        bail!("line {}: 'End' is missing", self.line())
    }
}

/// The program that the words write; what isn't of the form is refused with its line.
pub fn read(alloc: Global, list: Vec<Token>) -> anyhow::Result<Written> {
    let mut words = Words { list, at: 0 };
    words.take("Maximize")?;
    words.take("obj:")?;
    let goal = words.take_terms(alloc, "Subject")?;
    words.take("Subject")?;
    words.take("To")?;
    let rows = words.take_rows(alloc)?;
    words.take("End")?;
    if words.at != words.list.len() {
        bail!("line {}: nothing may stand behind 'End'", words.line());
    }
    Ok(Written { goal, rows })
}
