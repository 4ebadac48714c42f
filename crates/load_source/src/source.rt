//! The source of the command `load`: numbers that are drawn from a seed, and clauses by which four threads put them into the
//! database and send them to the first one, which adds them up. What it writes is the same in every schedule.
ghost use Rattle.std.specs.Prelude.{◌≡◌, ◌++◌, ◌<◌, codes, decimal, IfOk, OnOk};
ghost use Rattle.load_source.specs.LoadSource.{clauses, fact, facts, load_source, next_random, value_of};

use itoa::Buffer;
use pl_term::Memory;
use std::alloc::Global;

/// What stands after the numbers.
const CLAUSES: &str = ":- dynamic(item/2).
put(I,N) :- I > N, !.
put(I,N) :- v(I,V), number_codes(V,C), atom_codes(A,[0'a|C]), assertz(item(A,V)),
            thread_send_message(main,m(A,V)), J is I+4, put(J,N).
start(5,_,[]) :- !.
start(K,N,[T|Ts]) :- thread_create(put(K,N),T,[]), L is K+1, start(L,N,Ts).
join([]).
join([T|Ts]) :- thread_join(T,true), join(Ts).
take(0,S,S) :- !.
take(N,A,S) :- thread_get_message(m(_,V)), B is A+V, M is N-1, take(M,B,S).
len([],N,N).
len([_|T],I,N) :- J is I+1, len(T,J,N).
load :- size(N), start(1,N,Ts), take(N,0,S), join(Ts), findall(A,item(A,_),L), sort(L,D),
        len(D,0,K), write(N), write(' '), write(S), write(' '), write(K), nl.
";

/// The source with so many numbers, which are drawn from this seed. The only error is out of memory.
pub fn load_source(alloc: Global, seed: u64, size: u64) -> Result<Vec<u8>, Memory>
    requires { seed < 2147483648 }
    ensures { IfOk result (λ v. v.items ≡ load_source seed size) }
{
    let mut text = Vec::from_slice(alloc, b"size(")?;
    put_number(&mut text, size)?;
    text.extend_from_slice(b").\n")?;
    put_facts(&mut text, seed, size)?;
    text.extend_from_slice(CLAUSES.as_bytes())?;
    Ok(text)
}

/// Puts so many facts with the numbers after this one. The only error is out of memory.
fn put_facts(text: &mut Vec<u8>, seed: u64, size: u64) -> Result<(), Memory>
    requires { seed < 2147483648 }
    ensures { OnOk result (text.new.items ≡ text.old.items ++ facts size 1 seed) }
{
    let mut random = seed;
    for i in 0..size {
        random = next_random(random);
        put_fact(text, i + 1, value_of(random))?;
    }
    Ok(())
}

/// The number after this one.
fn next_random(random: u64) -> u64
    requires { random < 2147483648 }
    ensures number { result ≡ next_random random }
    ensures bound { result < 2147483648 }
{
    (1_103_515_245 * random + 12_345) % 2_147_483_648
}

/// What the fact of a number has.
fn value_of(random: u64) -> u64
    ensures { result ≡ value_of random }
{
    (random / 65_536) % 1000
}

/// Puts the fact that the number with this index is this. The only error is out of memory.
fn put_fact(text: &mut Vec<u8>, index: u64, value: u64) -> Result<(), Memory>
    ensures { OnOk result (text.new.items ≡ text.old.items ++ fact index value) }
{
    text.extend_from_slice(b"v(")?;
    put_number(text, index)?;
    text.extend_from_slice(b",")?;
    put_number(text, value)?;
    text.extend_from_slice(b").\n")?;
    Ok(())
}

/// Puts a number in decimal. The only error is out of memory.
fn put_number(text: &mut Vec<u8>, number: u64) -> Result<(), Memory>
    ensures { OnOk result (text.new.items ≡ text.old.items ++ decimal number) }
{
    let mut digits = Buffer::new();
    text.extend_from_slice(digits.format(number).as_bytes())?;
    Ok(())
}
