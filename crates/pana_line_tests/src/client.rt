//! What a client writes for each kind of call, and reads of each kind of answer.

use pana_calls::{Call, Query, Session};
use pana_client::{AnswerFault, Client, call_line, read_answer};
use pana_copies::DeviceName;
use pana_wire::{decode, encode_answer};
use std::io;
use std::io::Write;
use std::test::Fail;

/// An answer of each kind.
const ANSWERS: [&str; 22] = [
    "{\"done\":7}",
    "{\"did\":\"reconcile\",\"done\":18446744073709551615}",
    "{\"known\":2}",
    "{\"known\":null}",
    "{\"code\":2,\"copy\":99,\"refused\":\"UnknownCopy\"}",
    "{\"code\":9,\"refused\":\"OutOfMemory\"}",
    "{\"families\":[{\"copies\":3,\"family\":1,\"newest\":2,\"split\":true}]}",
    "{\"stamps\":[{\"copy\":1,\"stamp\":\"(((1,0),0),(0,(0,2,0),2))\"}]}",
    "{\"stamps\":[]}",
    "{\"pair\":\"Equal\"}",
    "{\"pair\":\"Conflict\"}",
    "{\"holdings\":[]}",
    "{\"holdings\":[{\"copy\":1,\"family\":1,\"path\":\"b\",\"touch\":1},{\"copy\":2,\"family\":2,\"path\":\"a\",\"touch\":2}]}",
    "{\"at\":null}",
    "{\"status\":[]}",
    "{\"status\":[{\"copy\":2,\"device\":\"usb\",\"path\":\"a\\\"b\\\\c\",\"state\":\"conflict\",\"with\":{\"copy\":1,\"device\":\"laptop\",\"path\":\"a\"}}]}",
    "{\"entries\":[]}",
    "{\"entries\":[{\"by\":\"usb\",\"copy\":1,\"do\":\"remove\",\"number\":2}]}",
    "{\"code\":14,\"refused\":\"NotKept\"}",
    "{\"board\":{\"copies\":[{\"conflict\":1,\"copy\":1,\"device\":\"laptop\",\"equal\":0,\"newer\":0,\"older\":0,\"path\":\"plan.txt\"},{\"conflict\":1,\"copy\":2,\"device\":\"usb\",\"equal\":0,\"newer\":0,\"older\":0,\"path\":\"plan.txt\"}],\"family\":1,\"newest\":[1,2],\"split\":true}}",
    "{\"at\":{\"conflict\":1,\"copy\":1,\"equal\":0,\"family\":1,\"newer\":0,\"older\":1,\"state\":\"conflict\"}}",
    "{\"holdings\":[{\"copy\":2,\"family\":1,\"path\":\"plan.txt\",\"sum\":\"aaaaaaaaaaaaaaaaaaaaaaaaaaaaaaaaaaaaaaaaaaaaaaaaaaaaaaaaaaaaaaaa\",\"touch\":2}]}",
];

/// Lines that are no answers.
const OTHERS: [&str; 13] = [
    "",
    "7",
    "{}",
    "{\"done\":-1}",
    "{\"done\": 7}",
    "{\"done\":7,\"x\":1}",
    "{\"done\":7,\"done\":7}",
    "{\"did\":\"found\",\"done\":7}",
    "{\"known\":\"2\"}",
    "{\"code\":3,\"refused\":\"OtherFamily\"}",
    "{\"fault\":\"NotJson\"}",
    "{\"entries\":[{}]}",
    "{\"holdings\":[{\"copy\":1,\"family\":1,\"path\":\"a\",\"touch\":1},{\"copy\":2,\"family\":2,\"path\":\"a\",\"touch\":2}]}",
];

/// A call of each kind.
const CALLS: [&str; 12] = [
    "{\"by\":\"laptop\",\"do\":\"families\"}",
    "{\"by\":\"laptop\",\"do\":\"board\",\"family\":18446744073709551615}",
    "{\"by\":\"laptop\",\"do\":\"stamps\",\"family\":1}",
    "{\"a\":1,\"b\":2,\"by\":\"laptop\",\"do\":\"pair\"}",
    "{\"by\":\"laptop\",\"device\":\"usb\",\"do\":\"at\",\"path\":\"a\\\"b\\\\c\"}",
    "{\"by\":\"laptop\",\"do\":\"journal\",\"from\":1}",
    "{\"by\":\"laptop\",\"device\":\"usb\",\"do\":\"holdings\",\"from\":2}",
    "{\"by\":\"laptop\",\"device\":\"usb\",\"do\":\"status\",\"from\":1}",
    "{\"by\":\"laptop\",\"do\":\"status\",\"from\":1}",
    "{\"by\":\"laptop\",\"device\":\"usb\",\"do\":\"missing\",\"path\":\"a\"}",
    "{\"by\":\"laptop\",\"device\":\"usb\",\"do\":\"found\",\"path\":\"a\",\"sum\":\"e3b0c44298fc1c149afbf4c8996fb92427ae41e4649b934ca495991b7852b855\"}",
    "{\"by\":\"laptop\",\"copy\":2,\"do\":\"edit\"}",
];

#[test]
fn each_kind_of_answer_is_read(rt: HostRuntime) -> Result<(), Fail> {
    let alloc = rt.alloc();
    for line in ANSWERS {
        let answer = read_answer(alloc, line.as_bytes())?;
        assert_eq!(rt; encode_answer(alloc, &answer)?.as_str(), line);
    }
    Ok(())
}

#[test]
fn what_is_no_answer_is_refused(rt: HostRuntime) -> Result<(), Fail> {
    let alloc = rt.alloc();
    for line in OTHERS {
        assert_eq!(rt;
            read_answer(alloc, line.as_bytes()).err(),
            Some(AnswerFault::NoAnswer)
        );
    }
    Ok(())
}

#[test]
fn each_kind_of_call_is_written(rt: HostRuntime) -> Result<(), Fail> {
    let alloc = rt.alloc();
    for line in CALLS {
        let message = decode(alloc, line.as_bytes())?;
        let Ok(written) = call_line(alloc, &message.by, &message.call) else {
            return Err(Fail::from("a call was not written"));
        };
        assert_eq!(rt; written.as_str(), line);
    }
    Ok(())
}

const WRITTEN: &str =
    "{\"by\":\"laptop\",\"do\":\"families\"}\n{\"by\":\"laptop\",\"do\":\"families\"}\n{\"by\":\"laptop\",\"do\":\"families\"}\n";

#[test]
fn a_client_makes_calls_until_one_has_no_answer(rt: HostRuntime) -> Result<(), Fail> {
    let alloc = rt.alloc();
    let by = DeviceName::new("laptop")?;
    let mut written = Vec::new(alloc);
    let answers = b"{\"done\":1}\n{\"known\":null}\n{\"fault\":\"NotJson\"}\n{\"done\":2}\n";
    let mut answered = Vec::new(alloc);
    {
        let mut client = Client::new(alloc, answers.as_slice(), &mut written);
        for _ in 0..4 {
            let answer = client.call(&by, Call::Query(Query::Families));
            answered.push(answer.is_ok())?;
        }
    }
    assert_eq!(rt; answered.as_slice(), [true, true, false, false].as_slice());
    assert_eq!(rt; written.as_slice(), WRITTEN.as_bytes());
    Ok(())
}

/// A writer that takes one byte at a time, and so many in all, and counts its flushes.
#[derive(Drop)]
struct Scant {
    bytes: Vec<u8>,
    room: usize,
    flushes: usize,
}

impl Write for Scant {
    fn write(&mut self, bytes: &[u8]) -> io::Result<usize> {
        if bytes.is_empty() || self.bytes.len() >= self.room {
            return Ok(0);
        }
        self.bytes.push(bytes[0])?;
        Ok(1)
    }

    fn flush(&mut self) -> io::Result<()> {
        self.flushes = self.flushes.saturating_add(1);
        Ok(())
    }
}

#[test]
fn a_call_that_is_cut_off_has_no_answer(rt: HostRuntime) -> Result<(), Fail> {
    let alloc = rt.alloc();
    let by = DeviceName::new("laptop")?;
    let mut writer = Scant {
        bytes: Vec::new(alloc),
        room: 40,
        flushes: 0,
    };
    let answers = b"{\"done\":1}\n{\"done\":2}\n{\"done\":3}\n";
    let mut answered = Vec::new(alloc);
    {
        let mut client = Client::new(alloc, answers.as_slice(), &mut writer);
        for _ in 0..3 {
            let answer = client.call(&by, Call::Query(Query::Families));
            answered.push(answer.is_ok())?;
        }
    }
    assert_eq!(rt; answered.as_slice(), [true, false, false].as_slice());
    assert_eq!(rt; Some(writer.bytes.as_slice()), WRITTEN.as_bytes().get(..40));
    assert_eq!(rt; writer.flushes, 1);
    Ok(())
}

#[test]
fn a_line_that_is_cut_off_is_no_answer(rt: HostRuntime) -> Result<(), Fail> {
    let alloc = rt.alloc();
    let by = DeviceName::new("laptop")?;
    let mut client = Client::new(alloc, b"{\"done\":1}".as_slice(), Vec::new(alloc));
    assert!(rt; client.call(&by, Call::Query(Query::Families)).is_err());
    Ok(())
}
