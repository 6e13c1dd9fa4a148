//! A law of printing.
ghost use Rattle.c_printer.specs.ProgramPrinting.{ReadIsPrintable};

/// The program of a text can be printed.
pub fn read_is_printable()
    ensures printable { ReadIsPrintable }
{}
