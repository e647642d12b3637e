// The stab codes, in order. Each line gives what the name, the desc and the value of such an entry hold, after "The stabs debug
// format" and the notes of binutils' stab.def; what a line leaves out is empty or 0.

/// A variable of global scope. Name: its symbol. Desc: the line of its declaration, or 0. The value is not used: the address is
/// that of the variable's own entry.
pub const N_GSYM: u8 = 0x20;
/// A function. Name: its symbol. Desc: the line of its declaration, or 0. Value: the address of its code.
pub const N_FUN: u8 = 0x24;
/// A static variable in data. Name: its symbol. Desc: the line of its declaration, or 0. Value: its address.
pub const N_STSYM: u8 = 0x26;
/// A static variable in bss. Name: its symbol. Desc: the line of its declaration, or 0. Value: its address.
pub const N_LCSYM: u8 = 0x28;
/// The main routine of a program. Name: that of the routine.
pub const N_MAIN: u8 = 0x2a;
/// A static variable in read-only data. Name: its symbol. Desc: the line of its declaration, or 0. Value: its place, which moves
/// with none of text, data and bss.
pub const N_ROSYM: u8 = 0x2c;
/// Options for a debugger. Name: the options.
pub const N_OPT: u8 = 0x3c;
/// A variable in a register. Name: its symbol. Desc: the line of its declaration, or 0. Value: the number of the register.
pub const N_RSYM: u8 = 0x40;
/// A line of the source. Desc: the number of the line, from 1. Value: the address of its code.
pub const N_SLINE: u8 = 0x44;
/// A unit: its start, before it a directory mark, or with an empty name its end mark. Name: the main source, or the directory,
/// which ends in `/`. Value: the address where the text of the unit begins, or ends.
pub const N_SO: u8 = 0x64;
/// A variable on the stack, or a type. Name: its symbol. Desc: the line of its declaration, or 0. Value: the offset from the
/// frame, 0 for a type.
pub const N_LSYM: u8 = 0x80;
/// The start of an include range. Name: the header file. Value: 0 from a compiler; from a linker the number by which ranges
/// of one name differ.
pub const N_BINCL: u8 = 0x82;
/// The source file of the lines after it. Name: that file. Value: the address where its code begins.
pub const N_SOL: u8 = 0x84;
/// A parameter. Name: its symbol. Desc: the line of its declaration, or 0. Value: the offset from the pointer to the arguments.
pub const N_PSYM: u8 = 0xa0;
/// The end of an include range.
pub const N_EINCL: u8 = 0xa2;
/// The start of a block. Desc: the depth of the block, or 0. Value: the address where its code begins, less the unit's start.
pub const N_LBRAC: u8 = 0xc0;
/// A header file that a linker left out, since an equal include range was kept. Name: the header file. Value: that of the
/// N_BINCL of the range that was kept.
pub const N_EXCL: u8 = 0xc2;
/// The end of a block. Desc: the depth of the block, or 0. Value: the address where its code ends, less the unit's start.
pub const N_RBRAC: u8 = 0xe0;
