ghost use Rattle.std.specs.Prelude.{◌≡◌, Some};
ghost use Rattle.rv_form.specs.Instruction.{IsValid, word_of, instruction_of};

use rv_form::Instr;

/// The law of encoding: a valid instruction's word is read as that instruction.
pub fn encoded_is_decoded(instr: Instr)
    requires { IsValid instr }
    ensures { instruction_of (word_of instr) ≡ Some instr }
{
    let _ = instr;
}

/// The law of decoding: a word's instruction is valid, and its word is that word.
pub fn decoded_is_encoded(word: u32, instr: Instr)
    requires { instruction_of word ≡ Some instr }
    ensures valid { IsValid instr }
    ensures word { word_of instr ≡ word }
{
    let _ = (word, instr);
}
