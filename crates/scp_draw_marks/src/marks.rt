//! Where facts are in a picture.
ghost use Rattle.std.specs.Prelude.{◌≡◌, ◌≤◌, ◌-◌, IfOk, OnOk, IsOkUnless, Some, max, nat_eq, option_map, slice_get};
ghost use Rattle.scp_words.specs.scp_wire.specs.Reading.{reading_of};
ghost use Rattle.scp_draw_marks.specs.Topics.{topic_of_reading, numbers_of_reading, came_by as came_by_fact};
ghost use Rattle.scp_draw_marks.specs.Places.{newest as newest_in, up as up_from, next_letter, with_letters, letter_of as letter_by, row_of_letter as row_by_letter, topic_of_fact as topic_by_fact, act_of as act_by, takes_row as takes_row_by, new_pen, pen_of as pen_by, with_pen as with_pen_of, on_line as on_line_of, at_node as at_node_of, below as below_of, with_floor as with_floor_of, blank, marked, posted, pen_on as pen_on_by, moved as moved_by, shown as shown_so, shown_by, with_fact as with_fact_of, with_told as with_told_of, with_telling as with_telling_of, drawn as drawn_of};

use crate::facts::{came_by, is_of, post_of, same_slot, topic_of_fact};
use crate::topic::{Letter, Topic};
use scp_facts::below::node::Node;
use scp_facts::{Fact, Telling, Told};
use scp_words::below::types::{ConnId, Fault};
use std::alloc::Global;
use std::marker::Model;

/// What a node does in a fact, as far as others of its facts depend on it.
#[derive(Clone, Copy, PartialEq, Eq)]
pub enum Act {
    Says,
    Sends,
    Decides,
    Else,
}

/// Where the next fact of a section goes.
#[derive(Clone, Copy)]
pub struct Pen {
    pub slot: Option<u64>,
    /// The script's line of the last fact.
    pub line: usize,
    /// The node of the last fact of this line, or 0 if there is none.
    pub node: u8,
    /// The row at which the round began.
    pub top: u64,
    /// The row of the last fact.
    pub row: u64,
    /// The row below everything so far.
    pub floor: u64,
}

/// A fact in the picture.
#[derive(Clone, Copy)]
pub struct Mark {
    /// Its index among all reports.
    pub at: usize,
    pub node: u8,
    pub topic: Topic,
    pub act: Act,
    /// The line of the script that was played.
    pub line: usize,
    /// Whether it is the first of this line in its section.
    pub begins: bool,
    pub row: u64,
    /// The row in which its message came, if that is known and in the same section.
    pub from: Option<u64>,
}

/// A picture that is being made.
#[derive(Drop)]
pub struct Drawing {
    alloc: Global,
    line: usize,
    letters: Vec<Letter>,
    pens: Vec<Pen>,
    marks: Vec<Mark>,
}

impl Model for Drawing {
    ghost use Rattle.scp_draw_marks.specs.Places.{DrawingView};

    ghost Value = { DrawingView };

    ghost view = { λ d. record { line = d.line; letters = d.letters.items; pens = d.pens.items; marks = d.marks.items } };
}

/// The next number, at most 2^64 - 1.
fn up(n: u64) -> u64
    ensures { result ≡ up_from n }
{
    if n < u64::MAX { n + 1 } else { n }
}

/// The newest letter of a connection. With a number, the newest that has this number.
fn newest(letters: &[Letter], conn: &ConnId, seq: Option<u64>) -> Option<Letter>
    ensures { result ≡ newest_in conn.now seq letters.now }
{
    let mut left = letters.len();
    while left > 0 {
        let letter = letters[left - 1];
        if is_of(&letter, conn, seq) {
            return Some(letter);
        }
        left -= 1;
    }
    None
}

/// The next letter of a connection.
fn letter_behind(letters: &[Letter], conn: ConnId, topic: Topic, row: u64) -> Letter
    ensures { result ≡ next_letter conn topic row letters.now }
{
    let seq = match newest(letters, &conn, None) {
        Some(letter) => up(letter.seq),
        None => 0,
    };
    Letter {
        conn,
        seq,
        topic,
        row,
    }
}

/// Adds this many letters of a connection.
fn add_letters(
    letters: &mut Vec<Letter>,
    count: usize,
    conn: ConnId,
    topic: Topic,
    row: u64,
) -> Result<(), Fault>
    ensures added { OnOk result (letters.new.items ≡ with_letters count conn topic row letters.old.items) }
    ensures only_memory { IsOkUnless result Fault.NoMemory }
{
    for _ in 0..count {
        let letter = letter_behind(letters.as_slice(), conn, topic, row);
        letters.push(letter)?;
    }
    Ok(())
}

/// The letter of a fact's message, if the fact has one.
fn letter_of(letters: &[Letter], place: Option<(ConnId, u64)>) -> Option<Letter>
    ensures { result ≡ letter_by place letters.now }
{
    match place {
        Some((conn, seq)) => newest(letters, &conn, Some(seq)),
        None => None,
    }
}

/// The row in which a letter came, if it is in the same section.
fn row_of_letter(topic: Topic, letter: Option<Letter>) -> Option<u64>
    ensures { result ≡ row_by_letter topic letter }
{
    match letter {
        Some(letter) if same_slot(letter.topic.slot, topic.slot) => Some(letter.row),
        _ => None,
    }
}

fn act_of(fact: &Fact) -> Act
    ensures { result ≡ act_by fact.now }
{
    match fact {
        Fact::Says(_) => Act::Says,
        Fact::Sent(..) => Act::Sends,
        Fact::Decided(_) => Act::Decides,
        _ => Act::Else,
    }
}

fn takes_row(act: Act) -> bool
    ensures { result ≡ takes_row_by act }
{
    match act {
        Act::Sends => false,
        Act::Says | Act::Decides | Act::Else => true,
    }
}

/// The pen of a section.
fn pen_of(pens: &[Pen], slot: Option<u64>) -> Pen
    ensures { result ≡ pen_by slot pens.now }
{
    for pen in pens {
        if same_slot(pen.slot, slot) {
            return *pen;
        }
    }
    Pen {
        slot,
        line: 0,
        node: 0,
        top: 0,
        row: 0,
        floor: 0,
    }
}

/// Puts a pen in place of its section's. The pen of a new section comes last.
fn put_pen(pens: &mut Vec<Pen>, pen: Pen) -> Result<(), Fault>
    ensures put { OnOk result (pens.new.items ≡ with_pen_of pen pens.old.items) }
    ensures only_memory { IsOkUnless result Fault.NoMemory }
{
    for index in 0..pens.len() {
        if same_slot(pens[index].slot, pen.slot) {
            pens[index] = pen;
            return Ok(());
        }
    }
    pens.push(pen)?;
    Ok(())
}

/// The pen at this line.
fn on_line(line: usize, pen: Pen) -> Pen
    ensures { result ≡ on_line_of line pen }
{
    if line == pen.line {
        return pen;
    }
    Pen {
        slot: pen.slot,
        line,
        node: 0,
        top: pen.floor,
        row: pen.floor,
        floor: pen.floor,
    }
}

/// The pen at a fact of this node.
fn at_node(node: u8, takes: bool, pen: Pen) -> Pen
    ensures { result ≡ at_node_of node takes pen }
{
    let mut moved = pen;
    if node == pen.node {
        if takes {
            moved.row = up(pen.row);
        }
    } else if pen.node < node {
        moved.node = node;
        moved.row = pen.top;
    } else {
        moved.node = node;
        moved.top = pen.floor;
        moved.row = pen.floor;
    }
    moved
}

/// The pen below the row in which a message came.
fn below(from: Option<u64>, pen: Pen) -> Pen
    ensures { result ≡ below_of from pen }
{
    let mut moved = pen;
    if let Some(from) = from {
        moved.row = pen.row.max(up(from));
    }
    moved
}

/// The pen with its floor below its row.
fn with_floor(pen: Pen) -> Pen
    ensures { result ≡ with_floor_of pen }
{
    let mut moved = pen;
    moved.floor = pen.floor.max(up(pen.row));
    moved
}

/// The pen moved on for a fact whose message came in this row.
fn moved(told: &Told, from: Option<u64>, pen: Pen) -> Pen
    ensures { result ≡ moved_by told.now from pen }
{
    let takes = takes_row(act_of(&told.fact));
    with_floor(below(from, at_node(told.node, takes, pen)))
}

impl Drawing {
    /// A picture of no facts.
    fn new(alloc: Global) -> Drawing
        ensures { result ≡ blank }
    {
        Drawing {
            alloc,
            line: 0,
            letters: Vec::new(alloc),
            pens: Vec::new(alloc),
            marks: Vec::new(alloc),
        }
    }

    /// The pens of the sections, and the marks.
    pub fn into_parts(self) -> (Vec<Pen>, Vec<Mark>)
        ensures pens { result.0.items ≡ self.pens }
        ensures marks { result.1.items ≡ self.marks }
    {
        (self.pens, self.marks)
    }

    /// The pen of this topic's section, at the line that was played.
    fn pen_on(&self, topic: Topic) -> Pen
        ensures { result ≡ pen_on_by topic self.now }
    {
        on_line(self.line, pen_of(self.pens.as_slice(), topic.slot))
    }

    /// Adds the mark of a fact.
    fn mark(
        &mut self,
        at: usize,
        topic: Topic,
        from: Option<u64>,
        begun: Pen,
        pen: Pen,
        told: &Told,
    ) -> Result<(), Fault>
        ensures marked { OnOk result (self.new ≡ marked at topic from begun pen told.now self.old) }
        ensures only_memory { IsOkUnless result Fault.NoMemory }
    {
        let mark = Mark {
            at,
            node: told.node,
            topic,
            act: act_of(&told.fact),
            line: self.line,
            begins: begun.node == 0,
            row: pen.row,
            from,
        };
        put_pen(&mut self.pens, pen)?;
        self.marks.push(mark)?;
        Ok(())
    }

    /// Keeps the letters of an arrival.
    fn post(&mut self, conn: ConnId, count: usize, topic: Topic, pen: Pen) -> Result<(), Fault>
        ensures posted { OnOk result (self.new ≡ posted conn count topic pen self.old) }
        ensures only_memory { IsOkUnless result Fault.NoMemory }
    {
        put_pen(&mut self.pens, pen)?;
        add_letters(&mut self.letters, count, conn, topic, pen.row)
    }

    /// Keeps the letters of the message that these bytes encode.
    fn post_bytes(&mut self, conn: ConnId, bytes: &[u8]) -> Result<(), Fault>
        ensures posted { OnOk result (self.new ≡ posted conn (numbers_of_reading (reading_of bytes.now)) (topic_of_reading (reading_of bytes.now)) (pen_on_by (topic_of_reading (reading_of bytes.now)) self.old) self.old) }
        ensures only_memory { IsOkUnless result Fault.NoMemory }
    {
        let (topic, count) = post_of(self.alloc, bytes)?;
        let pen = self.pen_on(topic);
        self.post(conn, count, topic, pen)
    }

    /// Adds a fact that is shown, whose message came in this row.
    fn show(&mut self, at: usize, told: &Told, topic: Topic, from: Option<u64>) -> Result<(), Fault>
        ensures shown { OnOk result (self.new ≡ shown_so at told.now topic from self.old) }
        ensures only_memory { IsOkUnless result Fault.NoMemory }
    {
        let begun = self.pen_on(topic);
        let pen = moved(told, from, begun);
        self.mark(at, topic, from, begun, pen, told)
    }

    /// Adds a fact that is shown, of a node.
    fn show_of(&mut self, at: usize, node: &Node, told: &Told) -> Result<(), Fault>
        ensures shown { OnOk result (self.new ≡ shown_by at told.now (topic_by_fact node.now self.old.letters told.now.fact) (letter_by (came_by_fact node.now told.now.fact) self.old.letters) self.old) }
        ensures only_memory { IsOkUnless result Fault.NoMemory }
    {
        let letter = letter_of(self.letters.as_slice(), came_by(node, &told.fact));
        let topic = topic_of_fact(self.alloc, node, letter, &told.fact)?;
        self.show(at, told, topic, row_of_letter(topic, letter))
    }

    /// Adds a fact of a node.
    fn add_fact(&mut self, at: usize, node: &Node, told: &Told) -> Result<(), Fault>
        ensures added { OnOk result (self.new ≡ with_fact_of at node.now told.now told.now.fact self.old) }
        ensures only_memory { IsOkUnless result Fault.NoMemory }
    {
        match &told.fact {
            Fact::Came(conn, bytes) => self.post_bytes(*conn, bytes.as_slice()),
            Fact::Given(_) => Ok(()),
            _ => self.show_of(at, node, told),
        }
    }

    /// Adds a fact, if its node is there.
    fn add_told(&mut self, nodes: &[Node], at: usize, told: &Told) -> Result<(), Fault>
        ensures added { OnOk result (self.new ≡ with_told_of at (slice_get nodes.now (told.now.node - 1)) told.now self.old) }
        ensures only_memory { IsOkUnless result Fault.NoMemory }
    {
        match nodes.get(usize::from(told.node.saturating_sub(1))) {
            Some(node) => self.add_fact(at, node, told),
            None => Ok(()),
        }
    }

    /// Adds a report.
    fn add(&mut self, nodes: &[Node], at: usize, telling: &Telling) -> Result<(), Fault>
        ensures added { OnOk result (self.new ≡ with_telling_of nodes.now at telling.now self.old) }
        ensures only_memory { IsOkUnless result Fault.NoMemory }
    {
        match telling {
            Telling::Line(line) => {
                self.line = *line;
                Ok(())
            }
            Telling::Of(told) => self.add_told(nodes, at, told),
        }
    }
}

/// The picture of all reports about these nodes.
pub fn drawing_of(alloc: Global, nodes: &[Node], tellings: &[Telling]) -> Result<Drawing, Fault>
    ensures drawn { IfOk result (λ d. d ≡ drawn_of nodes.now tellings.now) }
    ensures only_memory { IsOkUnless result Fault.NoMemory }
{
    let mut drawing = Drawing::new(alloc);
    for (at, telling) in tellings.iter().enumerate() {
        drawing.add(nodes, at, telling)?;
    }
    Ok(drawing)
}
