//! Encodings, widths and errors worked by hand. The functions do nothing.
ghost use Rattle.std.specs.Prelude.{◌≡◌, ◌∷◌, [], None, Some, codes, false, true};
ghost use Rattle.basinmug.specs.Encodings.{encoding_of, encoding_text};
ghost use Rattle.basinmug.specs.Faults.{is_of_input, of_bytes, of_reading, of_run, program_fault_text};
ghost use Rattle.basinmug.specs.Widths.{columns_in, columns_shown};
ghost use Rattle.basinmug.specs.declared.encoding.Encoding.TheVariants.{Utf16, Utf32, Windows1252};
ghost use Rattle.basinmug.specs.declared.fault.ProgramFault.{ProgramFault as OneFault};
ghost use Rattle.basinmug.specs.declared.fault.ProgramFault.TheVariants.{Memory, NotText, Open, Read, Reading, Run, Write, Writing};
ghost use Rattle.basinmug_input.specs.declared.fault.InputFault.TheVariants.{NotText as NoUtf8, Quote};
ghost use Rattle.basinmug_run.specs.declared.fault.RunFault.TheVariants.{Input, Print};
ghost use Rattle.basinmug_run.specs.declared.options.ColumnsShown.TheVariants.{All as AllColumns, Fitting};
ghost use Rattle.basinmug_run.specs.declared.picture.fault.PrintFault.TheVariants.{NoColumn, Table};
ghost use Rattle.command_line.specs.declared.basinmug.words.WidthAsked.TheVariants.{None as AnyWidth, Columns, Environment};
ghost use Rattle.tabled_output.specs.declared.building.BuildFault.TheVariants.{Write as BufferFailed};
ghost use Rattle.tabled_output.specs.declared.reading.ReadFault.TheVariants.{Memory as NoMemoryToRead, Read as CallFailed, TooLong};
ghost use Rattle.tabled_output.specs.declared.writing.WriteFault.TheVariants.{Write as WriteFailed, WriteZero};

use crate::fault::ProgramFault;
use std::fmt::Display;

/// The encoding of bytes that begin with the mark of UTF-16 or of UTF-32 in either order, with a part of it, with another
/// pair of its bytes, or with none.
pub fn encodings_by_hand()
    ensures little { encoding_of (0xff ∷ 0xfe ∷ codes "a") ≡ Utf16 }
    ensures big { encoding_of (0xfe ∷ 0xff ∷ []) ≡ Utf16 }
    ensures little_of_four { encoding_of (0xff ∷ 0xfe ∷ 0 ∷ 0 ∷ codes "a") ≡ Utf32 }
    ensures big_of_four { encoding_of (0 ∷ 0 ∷ 0xfe ∷ 0xff ∷ []) ≡ Utf32 }
    ensures three_of_four { encoding_of (0xff ∷ 0xfe ∷ 0 ∷ []) ≡ Utf16 }
    ensures one_zero { encoding_of (0xff ∷ 0xfe ∷ 0 ∷ codes "a") ≡ Utf16 }
    ensures two_zeros { encoding_of (0 ∷ 0 ∷ 0xff ∷ 0xfe ∷ []) ≡ Windows1252 }
    ensures half { encoding_of (0xff ∷ []) ≡ Windows1252 }
    ensures twice { encoding_of (0xff ∷ 0xff ∷ []) ≡ Windows1252 }
    ensures no_mark { encoding_of (0xe9 ∷ 0xff ∷ 0xfe ∷ []) ≡ Windows1252 }
    ensures nothing { encoding_of [] ≡ Windows1252 }
    ensures little_and_a_letter { encoding_of (0xff ∷ 0xfe ∷ 0x61 ∷ 0 ∷ []) ≡ Utf16 }
    ensures little_of_another_first { encoding_of (0xfe ∷ 0xfe ∷ 0 ∷ 0 ∷ []) ≡ Windows1252 }
    ensures little_of_another_second { encoding_of (0xff ∷ 0xff ∷ 0 ∷ 0 ∷ []) ≡ Windows1252 }
    ensures big_and_zeros { encoding_of (0xfe ∷ 0xff ∷ 0 ∷ 0 ∷ []) ≡ Utf16 }
    ensures big_of_another_first { encoding_of (1 ∷ 0 ∷ 0xfe ∷ 0xff ∷ []) ≡ Windows1252 }
    ensures big_of_another_second { encoding_of (0 ∷ 1 ∷ 0xfe ∷ 0xff ∷ []) ≡ Windows1252 }
    ensures big_of_another_third { encoding_of (0 ∷ 0 ∷ 0xff ∷ 0xff ∷ []) ≡ Windows1252 }
    ensures big_of_another_fourth { encoding_of (0 ∷ 0 ∷ 0xfe ∷ 0xfe ∷ []) ≡ Windows1252 }
{}

/// What is printed of an encoding: the command has its name.
pub fn encoding_texts_by_hand()
    ensures of_16 { encoding_text Utf16 ≡ codes "UTF-16: iconv -f UTF-16 -t UTF-8" }
    ensures of_32 { encoding_text Utf32 ≡ codes "UTF-32: iconv -f UTF-32 -t UTF-8" }
    ensures of_windows { encoding_text Windows1252 ≡ codes "perhaps WINDOWS-1252: iconv -f WINDOWS-1252 -t UTF-8" }
{}

/// The width that a text of `COLUMNS` requests: digits above 0 alone do.
pub fn widths_by_hand()
    ensures digits { columns_in (codes "80") ≡ Some 80 }
    ensures zeros { columns_in (codes "007") ≡ Some 7 }
    ensures greatest { columns_in (codes "4294967295") ≡ Some 4294967295 }
    ensures zero { columns_in (codes "0") ≡ None }
    ensures nothing { columns_in [] ≡ None }
    ensures letter { columns_in (codes "80x") ≡ None }
    ensures plus { columns_in (codes "+80") ≡ None }
    ensures too_great { columns_in (codes "4294967296") ≡ None }
{}

/// Which columns a table has: all where that is requested, and where the environment says how wide it is and the output is
/// no terminal; else those that fit.
pub fn columns_shown_by_hand()
    ensures all { (width : _) (is_terminal : _) → columns_shown true width is_terminal ≡ AllColumns }
    ensures terminal { columns_shown false Environment true ≡ Fitting }
    ensures pipe { columns_shown false Environment false ≡ AllColumns }
    ensures given { columns_shown false (Columns 80) false ≡ Fitting }
    ensures any_width { columns_shown false AnyWidth false ≡ Fitting }
{}

/// Errors with which the name of the input is printed, and others.
pub fn inputs_by_hand()
    ensures missing { (error : _) → is_of_input (Open error) ≡ true }
    ensures read { (error : _) → is_of_input (Reading error) ≡ true }
    ensures endless { is_of_input (Read TooLong) ≡ true }
    ensures encoding { (fault : _) → (encoding : _) → is_of_input (NotText fault encoding) ≡ true }
    ensures quote { is_of_input (Run (Input (Quote 1))) ≡ true }
    ensures no_column { (name : _) → is_of_input (Run (Print (NoColumn name))) ≡ false }
    ensures written { (error : _) → is_of_input (Writing error) ≡ false }
    ensures took_nothing { is_of_input (Write WriteZero) ≡ false }
    ensures memory { is_of_input Memory ≡ false }
    ensures memory_to_read { is_of_input (Read NoMemoryToRead) ≡ false }
{}

/// Errors of a run, with what the program knows of bytes and of its output.
pub fn faults_by_hand()
    ensures no_text { of_bytes (NoUtf8 2 3) (0xff ∷ 0xfe ∷ []) ≡ NotText (NoUtf8 2 3) Utf16 }
    ensures quote { of_bytes (Quote 2) (0xff ∷ 0xfe ∷ []) ≡ Run (Input (Quote 2)) }
    ensures failed { (error : _) → of_run (Print (Table BufferFailed)) [] 0 (Some error) ≡ Writing error }
    ensures no_reason { of_run (Print (Table BufferFailed)) [] 0 None ≡ Write WriteFailed }
    ensures took_nothing { of_run (Print (Table BufferFailed)) [] 1 None ≡ Write WriteZero }
    ensures endless { (error : _) → of_reading TooLong error ≡ Read TooLong }
    ensures memory { (error : _) → of_reading NoMemoryToRead error ≡ Memory }
{}

/// Errors and what is printed of them. Each is printed as its own text.
pub fn texts_by_hand()
    ensures printed { (fault : OneFault) → ⟦<ProgramFault as Display>⟧.output fault ≡ program_fault_text fault }
    ensures endless { program_fault_text (Read TooLong) ≡ Some (codes "input too long") }
    ensures read { program_fault_text (Read CallFailed) ≡ Some (codes "read failed") }
    ensures took_nothing { program_fault_text (Write WriteZero) ≡ Some (codes "writer took nothing") }
    ensures written { program_fault_text (Write WriteFailed) ≡ Some (codes "write failed") }
    ensures no_text { program_fault_text (NotText (NoUtf8 1 2) Utf16) ≡ Some (codes "line 1, field 2: not UTF-8 (UTF-16: iconv -f UTF-16 -t UTF-8)") }
    ensures quote { program_fault_text (Run (Input (Quote 3))) ≡ Some (codes "line 3: a quote that is not closed") }
    ensures memory { program_fault_text Memory ≡ Some (codes "out of memory") }
{}
