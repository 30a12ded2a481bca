//! The lines of scripts of lists.
ghost use Rattle.std.specs.Prelude.{◌≡◌, MatchResult, IfSome};
ghost use Rattle.ck_script.specs.Grammar.{Says};
ghost use Rattle.ck_script.specs.Reading.{HasLinePrefix};
ghost use Rattle.ck_text.specs.Words.{words};

use crate::arguments::{no_word, only_number, two_numbers};
use crate::fault::Why;
use crate::line::{AskLine, UpLine};
use crate::script_line::ScriptLine;
use ck_history::{Edit, Key};
use ck_text::cut;

impl ScriptLine for UpLine<Edit> {
    ghost use Rattle.ck_history.specs.Key.{IsKey};
    ghost use Rattle.std.specs.Prelude.{decimal};
    ghost use Rattle.ck_script.specs.Keys.{IsTableKeyFault, table_key_faultless};
    ghost use Rattle.ck_script.specs.ListGrammar.{IsEditLine, edit_words, edit_verbs, HasListFault};
    ghost use Rattle.ck_script.specs.Faultless.{edit_faultless};
    ghost use Rattle.ck_script.specs.Fronts.{is_hold};
    ghost use Rattle.ck_script.specs.Unique.{one_edit_line, edit_speaks};

    ghost is_taken = { IsEditLine };

    ghost spelling = { edit_words };

    ghost is_fault = { HasListFault edit_verbs };

    ghost waits = { is_hold };

    ghost one_line = { one_edit_line };

    ghost speaks = { edit_speaks };

    ghost faultless = { edit_faultless IsKey decimal IsTableKeyFault table_key_faultless };

    fn read_prefix(_: &[u8]) -> Option<(UpLine<Edit>, usize)> {
        None
    }

    fn read_line(line: &[u8]) -> Result<UpLine<Edit>, Why> {
        let (verb, rest) = cut(line, b' ');
        if verb == b"add".as_slice() {
            Ok(UpLine::Call(Edit::Add(only_number::<Key>(rest)?)))
        } else if verb == b"drop".as_slice() {
            Ok(UpLine::Call(Edit::Drop(only_number::<Key>(rest)?)))
        } else if verb == b"commit".as_slice() {
            no_word(rest)?;
            Ok(UpLine::Call(Edit::Commit))
        } else if verb == b"hold".as_slice() {
            let (file, n) = two_numbers::<Key>(rest)?;
            Ok(UpLine::Hold { file, n })
        } else {
            Err(Why::Verb)
        }
    }

    fn waits(&self) -> bool {
        matches!(self, UpLine::Hold { .. })
    }
}

impl ScriptLine for AskLine<()> {
    ghost use Rattle.ck_history.specs.Key.{IsKey};
    ghost use Rattle.std.specs.Prelude.{decimal};
    ghost use Rattle.ck_script.specs.Keys.{IsTableKeyFault, table_key_faultless};
    ghost use Rattle.ck_script.specs.ListGrammar.{IsViewLine, view_words, view_verbs, HasListFault};
    ghost use Rattle.ck_script.specs.Faultless.{view_faultless};
    ghost use Rattle.ck_script.specs.Fronts.{is_wait};
    ghost use Rattle.ck_script.specs.Unique.{one_view_line, view_speaks};

    ghost is_taken = { IsViewLine };

    ghost spelling = { view_words };

    ghost is_fault = { HasListFault view_verbs };

    ghost waits = { is_wait };

    ghost one_line = { one_view_line };

    ghost speaks = { view_speaks };

    ghost faultless = { view_faultless IsKey decimal IsTableKeyFault table_key_faultless };

    fn read_prefix(_: &[u8]) -> Option<(AskLine<()>, usize)> {
        None
    }

    fn read_line(line: &[u8]) -> Result<AskLine<()>, Why> {
        let (verb, rest) = cut(line, b' ');
        if verb == b"all".as_slice() {
            no_word(rest)?;
            Ok(AskLine::Ask(()))
        } else if verb == b"wait".as_slice() {
            let n = only_number::<Key>(rest)?;
            Ok(AskLine::Wait { n })
        } else {
            Err(Why::Verb)
        }
    }

    fn waits(&self) -> bool {
        matches!(self, AskLine::Wait { .. })
    }
}
