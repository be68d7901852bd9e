// Classes of letters before a word: letters that differ by a code of the word's span have one span with it.
ghost use Rattle.std.specs.Prelude.{◌≡◌, ◌≢◌, ℕ, ◌^◌, ◌<◌, ◌≤◌, List, ◌∷◌, All, IfOk, length, slice_index, slice_index_or};
ghost use Rattle.quick_label.specs.Classes.{IsClassRoom, IsClass, AreClasses};
ghost use Rattle.quick_label.specs.Spans.{AreSpan};

use crate::blocks::Blocks;
use crate::spans::{codes, widen};
use crate::weights::Weights;
use std::alloc::{AllocError, Global};

/// What the letters of one class share before a word. It is made once for all of them.
#[derive(Drop)]
pub struct Class {
    /// The span of the word and a letter of the class.
    pub span: Vec<bool>,
    pub blocks: Blocks,
    /// Whether digits find room: no block has more than 16 rows.
    pub small: bool,
    /// The weights of the high digits, and of the low ones.
    pub high: Weights,
    pub low: Weights,
}

impl Class {
    /// Room for a class on n qubits.
    fn new(alloc: Global, n: u8) -> Result<Class, AllocError>
        requires { n ≤ 3 }
        ensures { IfOk result (IsClassRoom n) }
    {
        Ok(Class {
            span: vec![in alloc; false; codes(n)]?,
            blocks: Blocks::new(alloc, n)?,
            small: false,
            high: Weights::new(alloc, n)?,
            low: Weights::new(alloc, n)?,
        })
    }

    /// Takes the class of a letter, given by its code, before the words with a span.
    fn take(&mut self, n: u8, span: &[bool], letter: usize)
        requires room { IsClassRoom n self.old }
        requires letter { letter < 4 ^ n }
        requires span { (letters : List ℕ) × AreSpan n letters span.now }
        ensures room { IsClassRoom n self.new }
        ensures class { (letters : List ℕ) → AreSpan n letters span.now → IsClass n (letter ∷ letters) self.new }
    {
        widen(span, letter, &mut self.span);
        self.small = self.blocks.take(&self.span);
        self.high.take_high(&self.blocks);
        self.low.take_low(&self.blocks);
    }
}

/// Room for the classes of all letters on n qubits.
pub fn new_classes(alloc: Global, n: u8) -> Result<Vec<Class>, AllocError>
    requires { n ≤ 3 }
    ensures long { IfOk result (λ classes. length classes.items ≡ 4 ^ n) }
    ensures rooms { IfOk result (λ classes. All (IsClassRoom n) classes.items) }
{
    let size = codes(n);
    let mut classes = Vec::with_capacity(alloc, size)?;
    for _ in 0..size {
        classes.push(Class::new(alloc, n)?)?;
    }
    Ok(classes)
}

/// Takes the class of a code, where the code is the home of its block.
fn settle_class(n: u8, span: &[bool], blocks: &Blocks, home: usize, classes: &mut [Class])
    requires long { length classes.old ≡ 4 ^ n }
    requires size { blocks.now.size ≡ 4 ^ n }
    requires home { home < 4 ^ n }
    requires rooms { All (IsClassRoom n) classes.old }
    requires span { (letters : List ℕ) × AreSpan n letters span.now }
    ensures long { length classes.new ≡ length classes.old }
    ensures rooms { All (IsClassRoom n) classes.new }
    ensures class { (letters : List ℕ) (d : _) → AreSpan n letters span.now → slice_index blocks.now.homes home ≡ home
        → IsClass n (home ∷ letters) (slice_index_or classes.new home d) }
    ensures kept { (other : ℕ) (d : _) → other ≢ home → slice_index_or classes.new other d ≡ slice_index_or classes.old other d }
{
    if blocks.home(home) != home {
        return;
    }
    classes[home].take(n, span, home);
}

/// Takes the classes of all letters before the words with a span, whose blocks these are. Each class stands at the home of its
/// letters.
pub fn take_classes(n: u8, span: &[bool], blocks: &Blocks, classes: &mut [Class])
    requires long { length classes.old ≡ 4 ^ n }
    requires size { blocks.now.size ≡ 4 ^ n }
    requires rooms { All (IsClassRoom n) classes.old }
    requires span { (letters : List ℕ) × AreSpan n letters span.now }
    ensures long { length classes.new ≡ length classes.old }
    ensures rooms { All (IsClassRoom n) classes.new }
    ensures classes { (letters : List ℕ) → AreSpan n letters span.now → AreClasses n letters blocks.now.homes classes.new }
{
    for home in 0..classes.len() {
        settle_class(n, span, blocks, home, classes);
    }
}
