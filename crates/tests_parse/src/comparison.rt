//! The parser against the recognizer, on scripts and on what a change of a word makes of them.

use crate::answers::{Want, answers};
use crate::recognizer::{Chart, Grammar};
use std::alloc::{AllocError, Global};

/// What is put in the place of a word.
const OTHERS: &[&str] = &[
    ";", ",", "(", ")", "{", "}", "=", "+=", "*", "&", "@", ".", "::", ":", "?", "++", "!", "<",
    "is", "1", "\"t\"", "z", "int", "void", "const", "class", "import", "from", "private", "final",
    "else", "while", "for", "return", "super", "auto",
];

/// The words of a changed script: those in front of the change, what stands in its place, and those after it.
#[derive(Clone, Copy)]
struct Words<'a> {
    before: &'a [&'a str],
    others: &'a [&'a str],
    behind: &'a [&'a str],
}

/// The column of the first byte after the words and a blank, from this column on.
fn column_behind(column: u32, words: &[&str]) -> u32 {
    let mut column = column;
    for word in words {
        column = column_after(column, word);
    }
    column
}

fn column_after(column: u32, word: &str) -> u32 {
    let length = u32::try_from(word.len()).unwrap_or(u32::MAX);
    column.wrapping_add(length).wrapping_add(1)
}

/// Adds words to a text, with a blank between each two.
fn add_words(text: &mut Vec<u8>, words: &[&str]) -> Result<(), AllocError> {
    for word in words {
        if !text.is_empty() {
            text.push(b' ')?;
        }
        text.extend_from_slice(word.as_bytes())?;
    }
    Ok(())
}

/// A script, at one of its words or after the last, and what stands in the place of that word where `parse` answers
/// otherwise than it has to.
#[derive(Clone, Copy, Debug)]
struct Wrong {
    at: usize,
    change: &'static str,
}

/// What a script is tried with. The chart has read the words in front of the change.
#[derive(Drop)]
struct Trial {
    alloc: Global,
    grammar: Grammar,
    chart: Chart,
    text: Vec<u8>,
}

impl Trial {
    fn new(alloc: Global) -> Trial {
        Trial {
            alloc,
            grammar: Grammar::new(alloc),
            chart: Chart::new(alloc),
            text: Vec::new(alloc),
        }
    }

    fn read(&mut self, word: &str) -> Result<bool, AllocError> {
        self.chart.read(&self.grammar, self.grammar.word(word))
    }

    /// What has to be answered from this column on, where these words stand, the words before having been read: the place
    /// of the first that no script can have there. The second answer is the column after the words.
    fn fault_in<'a>(
        &mut self,
        column: u32,
        words: &[&'a str],
    ) -> Result<(Option<Want<'a>>, u32), AllocError> {
        let mut column = column;
        for word in words {
            if !self.read(word)? {
                let name = word.as_bytes();
                return Ok((
                    Some(Want::Syntax {
                        line: 1,
                        column,
                        name,
                    }),
                    column,
                ));
            }
            column = column_after(column, word);
        }
        Ok((None, column))
    }

    /// What has to be answered where nothing stands after the words that were read, which end in front of this column.
    fn at_end(&self, column: u32) -> Want<'static> {
        if self.chart.is_script(&self.grammar) {
            return Want::Script;
        }
        Want::Syntax {
            line: 1,
            column: column.wrapping_sub(1).max(1),
            name: b"",
        }
    }

    /// What has to be answered on the words, of which those before were read already.
    fn wanted<'a>(&mut self, words: Words<'a>) -> Result<Want<'a>, AllocError> {
        let column = column_behind(1, words.before);
        let (fault, column) = self.fault_in(column, words.others)?;
        if let Some(want) = fault {
            return Ok(want);
        }
        let (fault, column) = self.fault_in(column, words.behind)?;
        if let Some(want) = fault {
            return Ok(want);
        }
        Ok(self.at_end(column))
    }

    fn write(&mut self, words: Words<'_>) -> Result<(), AllocError> {
        self.text.clear();
        add_words(&mut self.text, words.before)?;
        add_words(&mut self.text, words.others)?;
        add_words(&mut self.text, words.behind)
    }

    /// Whether `parse` answers on the words what it has to. The chart stays as it is.
    fn agrees(&mut self, words: Words<'_>) -> Result<bool, AllocError> {
        let want = self.wanted(words)?;
        self.chart.forget(words.before.len());
        self.write(words)?;
        Ok(answers(self.alloc, &self.text, want))
    }

    /// The first wrong answer where others stand in the place of a word.
    fn wrong_in(
        &mut self,
        before: &[&str],
        behind: &[&str],
    ) -> Result<Option<&'static str>, AllocError> {
        for other in OTHERS {
            let others = &[*other];
            if !self.agrees(Words {
                before,
                others,
                behind,
            })? {
                return Ok(Some(*other));
            }
        }
        Ok(None)
    }

    /// The first wrong answer where the script ends in front of a word, is without it, or has another in its place.
    fn wrong_at(
        &mut self,
        before: &[&str],
        behind: &[&str],
    ) -> Result<Option<&'static str>, AllocError> {
        if !self.agrees(Words {
            before,
            others: &[],
            behind: &[],
        })? {
            return Ok(Some("no more words"));
        }
        if !self.agrees(Words {
            before,
            others: &[],
            behind,
        })? {
            return Ok(Some("the words behind it"));
        }
        self.wrong_in(before, behind)
    }

    /// The first wrong answer on what is made of the script of these words. The script itself has to be one.
    fn first_wrong(&mut self, words: &[&str]) -> Result<Option<Wrong>, AllocError> {
        for (at, word) in words.iter().enumerate() {
            let before = words.get(..at).unwrap_or(words);
            let behind = words.get(at.wrapping_add(1)..).unwrap_or(&[]);
            if let Some(change) = self.wrong_at(before, behind)? {
                return Ok(Some(Wrong { at, change }));
            }
            if !self.read(word)? {
                return Ok(Some(Wrong {
                    at,
                    change: "the word itself",
                }));
            }
        }
        let whole = self.agrees(Words {
            before: words,
            others: &[],
            behind: &[],
        })?;
        Ok(if whole {
            None
        } else {
            Some(Wrong {
                at: words.len(),
                change: "nothing",
            })
        })
    }

    fn start(&mut self, words: usize) -> Result<(), AllocError> {
        self.grammar.fill()?;
        self.chart.start(&self.grammar, words.wrapping_add(2))
    }

    fn run(&mut self, words: &[&str]) -> Result<Option<Wrong>, AllocError> {
        self.start(words.len())?;
        self.first_wrong(words)
    }
}

/// Where `parse` first places an error of a script otherwise than the recognizer has it: of one of its fronts, or of the
/// script without one of its words, or with another in its place. The script has a blank between each two words.
fn first_wrong(alloc: Global, script: &str) -> Result<Option<Wrong>, AllocError> {
    let words: Vec<&str> = script.split_whitespace().collect(alloc)?;
    let mut trial = Trial::new(alloc);
    trial.run(&words)
}

/// What a script is made of, and its words. What stands in parentheses may be parameters or arguments; the token after
/// them tells which.
const SCRIPTS: &[(&str, &str)] = &[
    (
        "functions and globals",
        "const int a = 1 , b ( 2 , c ) , d ; ; void g ( void ) { } A @ const h ;",
    ),
    (
        "groups",
        "A x ( B @ const & in , C y ) { } A x ( b , c ( d ) ) ; A x ( B , C ) { } A x ( B ) , y ;",
    ),
    (
        "classes",
        "class A : B , C { private int x , y ; A ( int n ) { super ( n ) ; x = n ; } } int z ;",
    ),
    (
        "members",
        "final class A { protected const T @ const h ; void m ( ) const final override { return ; } A ( ) { } }",
    ),
    (
        "interfaces",
        "interface I : J { void f ( int a , const T & in b ) const ; int8 g ( ) ; } ;",
    ),
    (
        "imports",
        "import int f ( T @ , int & out x , T & inout , T & ) from \"m\" ; uint a ;",
    ),
    (
        "branches and loops",
        "void m ( ) { if ( a ) b ; else if ( c ) { } else while ( d ) break ; do x ++ ; while ( y ) ; }",
    ),
    (
        "for loops",
        "void m ( ) { for ( int i = 0 , j ; i < 3 ; ++ i , j -- ) continue ; for ( ; ; ) for ( i = 1 ; ; ) { } }",
    ),
    (
        "operands",
        "void e ( ) { z = cast < T @ > ( p . q ( 1 ) . r ++ ) ; int ( 3 ) ; A :: f ( null , this ) ; ( a ) . b ( ) ; }",
    ),
    ("values", "int a = E :: V + 1 ;"),
    (
        "operators",
        "bool k = a * b / c % d + e - f << g >> h >>> i & j ^ k | l < m <= n > o >= p == q != r is s !is t ;",
    ),
    (
        "words for operators",
        "bool k = a xor b ^^ c && d and e || f or not ! - + ~ @ ++ -- g ;",
    ),
    (
        "assignments",
        "void s ( ) { a = b += c ? d : e = f ; a -= b *= c /= d %= e &= f |= g ^= h <<= i >>= j >>>= true ; }",
    ),
    (
        "locals",
        "void t ( ) { A b ; A @ c = d ; A ( b ) ; int16 e ( 1 ) ; uint64 ( f ) ; const A g ; void h ; }",
    ),
];

#[test]
fn parser_and_recognizer_agree(rt: HostRuntime) -> Result<(), AllocError> {
    for (what, script) in SCRIPTS {
        let wrong = first_wrong(rt.alloc(), script)?;
        assert!(rt; wrong.is_none(), "{what}: {wrong:?}");
    }
    Ok(())
}
