//! Lines that are printed in one task or in several. The text is the same.
ghost use Rattle.std.specs.Prelude.{◌≡◌, ◌<◌, ◌≤◌, ◌+◌, ◌^◌, ◌++◌, ◌∷◌, List, ℕ, [], length, IfOk, OnOk, Ok, Vec};
ghost use Rattle.std.specs.declared.alloc.Global.{Global};
ghost use Rattle.ck_report.specs.Numbered.{numbered, AreTexts};

use crate::lines::LinePrinter;
use std::alloc::{AllocError, Global};
use std::thread;
use std::thread::Threads;

/// How many lines a task prints at a time. A part of a report that has no more is printed in one task, since starting a
/// thread costs as much as a thousand lines or so.
const BLOCK: usize = 8192;

/// How many lines one task prints before what is there is put.
const FEW: usize = 64;

/// What starts tasks, and how many.
#[derive(Drop)]
pub struct Tasks<'a, R> {
    pub rt: &'a R,
    pub alloc: Global,
    /// With 0 or 1 all is done in the task that asks for it.
    pub count: u8,
}

impl<R: Threads + Sync> Tasks<'_, R> {
    /// How many of these lines to print at a time.
    pub fn round(&self, lines: usize) -> usize
        requires { 0 < lines }
        ensures some { 0 < result }
        ensures within { result ≤ lines }
    {
        if self.count <= 1 || lines <= BLOCK {
            lines.min(FEW)
        } else {
            lines.min(BLOCK * (self.count as usize))
        }
    }

    /// Appends the lines of these items, where so many stand before them.
    pub fn print_lines<T: Sync, P: LinePrinter<T> + Sync>(
        &self,
        out: &mut Vec<u8>,
        printer: &P,
        before: u64,
        items: &[T],
    ) -> Result<(), AllocError>
        requires { before + length items.now < 2 ^ 64 }
        ensures { OnOk result (out.new.items ≡ out.old.items ++ numbered (P.line printer.now) before items.now) }
    {
        if items.len() <= BLOCK {
            return print_each(out, printer, before, items);
        }
        let alloc = self.alloc;
        let print = |start: usize, block: &[T]| -> Result<Vec<u8>, AllocError>
            requires { before + start + length block.now < 2 ^ 64 }
            ensures { IfOk result (λ text. text.items ≡ numbered (P.line printer.entry.now) (before + start) block.entry.now) }
        { block_text(alloc, printer, before + start as u64, block) };
        let texts = thread::map_chunks(self.rt, alloc, items, BLOCK, &print)?;
        append_texts(out, &texts)
    }
}

/// Appends the lines of these items, one after another.
pub fn print_each<T, P: LinePrinter<T>>(
    out: &mut Vec<u8>,
    printer: &P,
    before: u64,
    items: &[T],
) -> Result<(), AllocError>
    requires { before + length items.now < 2 ^ 64 }
    ensures { OnOk result (out.new.items ≡ out.old.items ++ numbered (P.line printer.now) before items.now) }
{
    let mut number = before;
    for item in items {
        number += 1;
        printer.print_line(out, number, item)?;
    }
    Ok(())
}

// The lines of a block, as a text of their own.
fn block_text<T, P: LinePrinter<T>>(
    alloc: Global,
    printer: &P,
    before: u64,
    items: &[T],
) -> Result<Vec<u8>, AllocError>
    requires { before + length items.now < 2 ^ 64 }
    ensures { IfOk result (λ text. text.items ≡ numbered (P.line printer.now) before items.now) }
{
    let mut out = Vec::new(alloc);
    print_each(&mut out, printer, before, items)?;
    Ok(out)
}

// Appends these texts, of which one may be wanting.
fn append_texts(out: &mut Vec<u8>, texts: &[Result<Vec<u8>, AllocError>]) -> Result<(), AllocError>
    ensures { OnOk result ((text : List ℕ) × AreTexts texts.now text × (out.new.items ≡ out.old.items ++ text)) }
{
    for text in texts {
        append_text(out, text)?;
    }
    Ok(())
}

// Appends this text, unless it is wanting.
fn append_text(out: &mut Vec<u8>, text: &Result<Vec<u8>, AllocError>) -> Result<(), AllocError>
    ensures { OnOk result ((t : Vec ℕ Global) × (text.now ≡ Ok t) × (out.new.items ≡ out.old.items ++ t.items)) }
{
    match text {
        Ok(text) => out.extend_from_slice(text),
        Err(error) => Err(*error),
    }
}
