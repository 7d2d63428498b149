//! A log as a text says it line by line.
//!
//! A record is spelled when it is whole, so what is held is the spelling of the records before and the vectors of the last one.
ghost use Rattle.std.specs.Prelude.{◌≡◌, ◌≤◌, ◌+◌, ◌++◌, ◌∷◌, [], length, Ok, Err, IfOk, Option, Some, None};
ghost use Rattle.std.specs.List.{flat_map};
ghost use Rattle.redo_vec.specs.Spelling.{be16, be32, be64, vector, record_bytes};
ghost use Rattle.redo_spec.specs.Log.{header_bytes};
ghost use Rattle.line_fields.specs.Given.{Gives};
ghost use Rattle.redo_text.specs.Draft.{beginning, add_bytes, size_of, with_record, closed, with_vector, record_line, other_line, line_of_words, says_nothing, line_taken, finished};

use crate::heading::{
    Begun, Heading, begun_after, header_of, heading_of, is_heading_word, no_heading, number_there,
    scn_of,
};
use crate::sizes::vector_size;
use redo_lines::{LineFault, ReadFault, is_word, note_vector, split, vector_of_words};
use redo_spec::Header;
use redo_vec::{MAX_RECORD, MAX_VECTORS, RedoRec, TableRow, Vector, Vectors, encode_record};
use rl_value::Bytes;
use std::alloc::Global;
use std::marker::Model;

/// The bytes of a record without a vector.
const NO_VECTOR: usize = 14;

/// What the lines so far say.
#[derive(Debug, Drop)]
pub struct Draft {
    heading: Heading,
    begun: Option<Begun>,
    tables: Vec<TableRow>,
    vectors: Vec<Vector>,
    size: usize,
    done: Vec<u8>,
}

impl Model for Draft {
    ghost use Rattle.std.specs.Prelude.{List, ℕ, length, ◌≡◌, ◌≤◌};
    ghost use Rattle.redo_text.specs.Draft.{Draft as State, size_of};

    ghost Value = { State (List ℕ) };

    ghost view = { λ d. record {
      heading = d.heading;
      begun = d.begun;
      tables = d.tables.items;
      vectors = d.vectors.items;
      done = d.done.items;
    } };

    ghost invariant = { λ d. (d.size ≡ size_of d.vectors.items) × (d.size ≤ 65536) × (length d.vectors.items ≤ 255) };
}

impl Draft {
    /// Before the first line.
    pub(crate) fn new(alloc: Global) -> Draft
        ensures { result ≡ beginning [] }
    {
        Draft {
            heading: no_heading(),
            begun: None,
            tables: Vec::new(alloc),
            vectors: Vec::new(alloc),
            size: NO_VECTOR,
            done: Vec::new(alloc),
        }
    }

    // The last record is whole.
    fn with_record(self, alloc: Global, scn: u64) -> Result<Draft, ReadFault>
        ensures { Gives (λ d. d) result (with_record add_bytes scn self.vectors self) }
    {
        let Draft {
            heading,
            begun,
            tables,
            vectors,
            size: _,
            mut done,
        } = self;
        if vectors.is_empty() {
            return Err(ReadFault::Line(LineFault::Empty));
        }
        let rec = RedoRec {
            scn,
            vectors: Vectors::of(vectors),
        };
        let bytes = encode_record(alloc, &rec)?;
        done.extend_from_slice(bytes.as_slice())?;
        Ok(Draft {
            heading,
            begun,
            tables,
            vectors: Vec::new(alloc),
            size: NO_VECTOR,
            done,
        })
    }

    #[tactic(auto, unfolding(crate::specs::Draft::closed))]
    fn closed(self, alloc: Global) -> Result<Draft, ReadFault>
        ensures { Gives (λ d. d) result (closed add_bytes self) }
    {
        match self.begun {
            None => Ok(self),
            Some(begun) => self.with_record(alloc, begun.scn),
        }
    }

    #[tactic(auto, unfolding(crate::specs::Draft::with_vector))]
    fn with_vector(self, vector: Vector) -> Result<Draft, ReadFault>
        ensures { Gives (λ d. d) result (with_vector self vector) }
    {
        let Draft {
            heading,
            begun,
            mut tables,
            mut vectors,
            size,
            done,
        } = self;
        if vectors.len() >= MAX_VECTORS {
            return Err(ReadFault::Line(LineFault::Many));
        }
        let size = size + vector_size(&vector);
        if size > MAX_RECORD {
            return Err(ReadFault::Line(LineFault::Long));
        }
        note_vector(&mut tables, &vector)?;
        vectors.push(vector)?;
        Ok(Draft {
            heading,
            begun,
            tables,
            vectors,
            size,
            done,
        })
    }

    fn with_begun(self, begun: Begun) -> Draft
        ensures { result ≡ record self { begun = Some begun } }
    {
        let Draft {
            heading,
            begun: _,
            tables,
            vectors,
            size,
            done,
        } = self;
        Draft {
            heading,
            begun: Some(begun),
            tables,
            vectors,
            size,
            done,
        }
    }

    fn with_heading(self, heading: Heading) -> Draft
        ensures { result ≡ record self { heading = heading } }
    {
        let Draft {
            heading: _,
            begun,
            tables,
            vectors,
            size,
            done,
        } = self;
        Draft {
            heading,
            begun,
            tables,
            vectors,
            size,
            done,
        }
    }

    #[tactic(auto, unfolding(crate::specs::Draft::record_line))]
    fn record_line(self, alloc: Global, words: &[Bytes]) -> Result<Draft, ReadFault>
        ensures { Gives (λ d. d) result (record_line add_bytes self words.now) }
    {
        let draft = self.closed(alloc)?;
        let _dbid = number_there(draft.heading.dbid)?;
        let scn = scn_of(draft.heading, draft.begun, words)?;
        let begun = begun_after(draft.begun, scn)?;
        Ok(draft.with_begun(begun))
    }

    #[tactic(auto, unfolding(crate::specs::Draft::other_line))]
    fn other_line(self, alloc: Global, keyword: &[u8], words: &[Bytes]) -> Result<Draft, ReadFault>
        ensures { Gives (λ d. d) result (other_line self.begun self keyword.now words.now) }
    {
        if self.begun.is_none() {
            let heading = heading_of(self.heading, keyword, words)?;
            return Ok(self.with_heading(heading));
        }
        if is_heading_word(keyword) {
            return Err(ReadFault::Line(LineFault::Order));
        }
        let vector = vector_of_words(alloc, self.tables.as_slice(), keyword, words)?;
        self.with_vector(vector)
    }

    #[tactic(auto, unfolding(crate::specs::Draft::line_of_words))]
    fn line_of_words(self, alloc: Global, words: &[Bytes]) -> Result<Draft, ReadFault>
        ensures { Gives (λ d. d) result (line_of_words add_bytes self words.now) }
    {
        match words {
            [] => Err(ReadFault::Line(LineFault::Words)),
            [keyword, others @ ..] => {
                if is_word(keyword.bytes(), b"RECORD") {
                    return self.record_line(alloc, others);
                }
                self.other_line(alloc, keyword.bytes(), others)
            }
        }
    }

    /// What the lines say with one more.
    #[tactic(auto, unfolding(crate::specs::Draft::line_taken))]
    pub(crate) fn line_taken(self, alloc: Global, line: &[u8]) -> Result<Draft, ReadFault>
        ensures { Gives (λ d. d) result (line_taken add_bytes self line.now) }
    {
        if says_nothing(line) {
            return Ok(self);
        }
        let words = split(alloc, b' ', line)?;
        self.line_of_words(alloc, words.as_slice())
    }

    fn into_done(self) -> Vec<u8>
        ensures { result.items ≡ self.done }
    {
        self.done
    }

    /// The header, and the spelling of all records.
    #[tactic(auto, unfolding(crate::specs::Draft::finished))]
    pub(crate) fn finished(self, alloc: Global) -> Result<(Header, Vec<u8>), ReadFault>
        ensures { Gives (λ x. (x.0, x.1.items)) result (finished add_bytes self) }
    {
        match self.begun {
            None => Err(ReadFault::Line(LineFault::Empty)),
            Some(begun) => {
                let draft = self.closed(alloc)?;
                let head = header_of(draft.heading, begun)?;
                Ok((head, draft.into_done()))
            }
        }
    }
}

fn says_nothing(line: &[u8]) -> bool
    ensures { result ≡ says_nothing line.now }
{
    match line {
        [] => true,
        [first, ..] => *first == b'#',
    }
}
