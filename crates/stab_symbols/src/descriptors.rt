/// Hands the table of symbol descriptors to another macro: what is given, and then each descriptor of one letter with its letter,
/// in the order in which they are tried. The rows stand here alone, so that the printer and the parser have the same. No row has a
/// variable on the stack, which has no letter, or `T` with or without a `t` after it.
#[macro_export]
macro_rules! with_descriptors {
    ($write:ident of $($given:expr),+) => {
        $write!($($given),+; in
            StaticFun b'f',
            GlobalFun b'F',
            Global b'G',
            FileStatic b'S',
            ProcStatic b'V',
            Param b'p',
            RegParam b'P',
            Register b'r',
            RefRegParam b'a',
            RefParam b'v',
            Typedef b't',
        )
    };
}
