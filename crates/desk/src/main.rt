// The program `desk`: it writes statements by the writer, runs them through a replica and prints "a line per reply".
#![tactic(auto)]

use carried::Stopped;
use statements::{Field, OUT, Operation, TRUE};

// The file descriptor of the standard output.
const STDOUT: i32 = 1;

// The longest record of a statement: its head, and a body of the greatest length.
const RECORD: usize = words::BODY_AT + words::MOST_BODY;

// "Codes": 1 in.
const IN: u8 = 1;

// "Fields: form 0 .. Form 1 .. Forms 3 and 4": given, bound, plus and minus.
const GIVEN: u8 = 0;

const BOUND: u8 = 1;

const PLUS: u8 = 3;

const MINUS: u8 = 4;

// "0 whole number .., 1 name".
const WHOLE: u8 = 0;

const NAME: u8 = 1;

// ---- the parts of additions

// A field; parts that its form does not have are not looked at.
fn field(form: u8, kind: u8, variable: u8, bits: u32) -> Field {
    Field {
        form,
        kind,
        variable,
        bits,
        highest: 0,
    }
}

// An operation on space 0 with two fields: a name, and another.
fn operation(code: u8, name: u32, second: Field) -> Operation {
    let first = field(GIVEN, NAME, 0, name);
    let mut fields = [first; words::MOST_FIELDS];
    fields[1] = second;
    Operation {
        code,
        from: 0,
        to: 0,
        count: 2,
        fields,
    }
}

// in(0, name, whole into 0).
fn taken(name: u32) -> Operation {
    operation(IN, name, field(BOUND, WHOLE, 0, 0))
}

// The guard true: its fields are not looked at.
fn always() -> Operation {
    operation(TRUE, 0, field(GIVEN, WHOLE, 0, 0))
}

// ---- statements

// in(0, name 7, whole into 0) then out(0, name 7, variable 0 plus 1), or else the same with name 8 and minus.
fn write_choice(body: &mut [u8]) -> Result<usize, Stopped> {
    carried::choice(
        body,
        2,
        5,
        taken(7),
        operation(OUT, 7, field(PLUS, WHOLE, 0, 1)),
        taken(8),
        operation(OUT, 8, field(MINUS, WHOLE, 0, 1)),
    )
}

// true then out(0, name 8, 41).
fn write_out(body: &mut [u8]) -> Result<usize, Stopped> {
    let begun = additions::begin_at(body, 2, 6, always())?;
    let fill = additions::operation_at(body, begun, operation(OUT, 8, field(GIVEN, WHOLE, 0, 41)))?;
    Ok(fill)
}

// true then out(0, name 7, variable 0 plus 1): no operation before it binds the variable.
fn write_unbound(body: &mut [u8]) -> Result<usize, Stopped> {
    let begun = additions::begin_at(body, 2, 7, always())?;
    let fill = additions::operation_at(body, begun, operation(OUT, 7, field(PLUS, WHOLE, 0, 1)))?;
    Ok(fill)
}

// ---- records

// Hands in a record, and prints the lines of its replies.
fn take(state: &mut [u8], record: &[u8]) {
    let mut reply = [0u8; words::REPLY];
    let mut text = [0u8; lines::ROOM];
    let returned = replica::replica_take(state, record, &mut reply);
    let end = lines::lines(&reply, returned as usize, &mut text);
    io::write_all(STDOUT, &text[..end]);
}

// "a two-byte ASCII mark, body length (2 bytes), position (4 bytes), body": such a record is handed in.
fn send(state: &mut [u8], mark: &[u8; words::MARK_WIDTH], position: u32, body: &[u8]) {
    let n = body.len();
    if words::MOST_BODY < n {
        return;
    }
    let mut record = [0u8; RECORD];
    spans::copy_at(&mut record, 0, mark);
    words::put2(&mut record, words::LENGTH_AT, n as u16);
    words::put4(&mut record, words::POSITION_AT, position);
    spans::copy_at(&mut record, words::BODY_AT, body);
    take(state, &record[..words::BODY_AT + n]);
}

// Prints the number of a refused addition.
fn print_refused(answer: u8) {
    let mut text = [0u8; lines::ROOM];
    let end = lines::refused(u32::from(answer), &mut text);
    io::write_all(STDOUT, &text[..end]);
}

// A body that was written, taken apart by the reader of bodies and written again, is sent.
fn send_again(state: &mut [u8], position: u32, body: &[u8]) {
    let mut again = [0u8; words::MOST_BODY];
    if let Ok(n) = copier::rewrite(body, &mut again)
        && let Some(copy) = again.get(..n)
    {
        send(state, b"AG", position, copy);
    }
}

// Sends the body that the writer left, unless it refused an addition.
fn run(state: &mut [u8], position: u32, body: &[u8], written: Result<usize, Stopped>) {
    match written {
        Ok(fill) => {
            if let Some(filled) = body.get(..fill) {
                send_again(state, position, filled);
            }
        }
        Err(stopped) => print_refused(stopped.answer),
    }
}

// Host 2 is up. The statement that chooses waits, and the next wakes it. The last is refused, and no record is made of it.
fn main() {
    let mut state = [0u8; words::STATE];
    let mut body = [0u8; words::MOST_BODY];
    replica::replica_fresh(&mut state);
    send(&mut state, b"RV", 1, &[2]);
    let choice = write_choice(&mut body);
    run(&mut state, 2, &body, choice);
    let put = write_out(&mut body);
    run(&mut state, 3, &body, put);
    let unbound = write_unbound(&mut body);
    run(&mut state, 4, &body, unbound);
}
