/// Rows of `ask`.
pub const ROWS: &[u8] = b"
# ---- asking
# an object is missing
run ask
> usage: word 1
ends 2
# the query follows no object
run ask -- units
> usage: word 1
ends 2
# the first object is not UTF-8
run ask \xff -- units
> usage: word 1
ends 2
# no word parts objects from a query
run ask a.o
> usage: word 2
ends 2
run ask a.o a.o units
> usage: word 4
ends 2
# a later object is not UTF-8
run ask a.o a.o \xff -- units
> usage: word 3
ends 2
# that is told before the word that is missing, and before a wrong word of the query
run ask a.o \xff
> usage: word 2
ends 2
run ask a.o \xff -- unit
> usage: word 2
ends 2
# a query is missing
run ask a.o --
> usage: word 3
ends 2
# another query
run ask a.o -- unit
> usage: word 3
ends 2
# a word of the query is missing, or one is too many
run ask a.o a.o -- tag 0
> usage: word 6
ends 2
run ask a.o -- units x
> usage: word 4
ends 2
# a word of the query is not UTF-8
run ask a.o -- tag 0 \xff
> usage: word 5
ends 2
# a second -- is a word of the query
run ask a.o -- -- units
> usage: word 3
ends 2
run ask a.o -- tag 0 --
> list 92 0 21 _f
ends 4
# an object that is not there
run ask a.o gone.o lost.o -- units
> absent gone.o
ends 5
# a load that fails
files 1
run ask a.o gone.o -- units
> read fault gone.o
ends 6
# a put that fails
sink 0
run ask a.o -- units
ends 7
# too many names are told before any is loaded
many 1025 gone.o ask * -- units
> limit 1024
ends 9
many 1024 gone.o ask * -- units
> absent gone.o
ends 5
# an object that is no object, and a list that is refused
file no.o 01
run ask a.o no.o -- units
> refused no.o 5 1 0
ends 3
";
