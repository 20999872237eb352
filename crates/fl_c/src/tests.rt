// The calls, as a caller in C makes them.
use crate::flashts_run;
use std::alloc::Global;
use std::test::Fail;

/// An image in a buffer, and replies in another.
#[derive(Drop)]
struct Caller {
    alloc: Global,
    image: Vec<u8>,
    image_len: usize,
    replies: Vec<u8>,
    replies_len: usize,
    line: u64,
}

impl Caller {
    fn new(alloc: Global, image_room: usize, replies_room: usize) -> Result<Caller, Fail> {
        let mut image = Vec::new(alloc);
        image.resize(image_room, 0)?;
        let mut replies = Vec::new(alloc);
        replies.resize(replies_room, 0)?;
        Ok(Caller {
            alloc,
            image,
            image_len: 0,
            replies,
            replies_len: 0,
            line: 99,
        })
    }

    fn run(&mut self, script: &[u8]) -> u32 {
        flashts_run(
            self.alloc,
            &mut self.image,
            &mut self.image_len,
            script,
            &mut self.replies,
            &mut self.replies_len,
            &mut self.line,
        )
    }

    /// The replies of the last call.
    fn said(&self) -> &[u8] {
        match self.replies.get(..self.replies_len) {
            Some(said) => said,
            None => b"?",
        }
    }
}

const CONFIGURATION: &[u8] = b"device 64 2\ntable t 4 u8 3 0 0 0 0 1 0 0\n";

/// The bytes of an image of this configuration: the header, and six pages.
const IMAGE: usize = 1024 + 6 * 64;

fn script(alloc: Global, commands: &[u8]) -> Result<Vec<u8>, Fail> {
    let mut script = Vec::new(alloc);
    script.extend_from_slice(CONFIGURATION)?;
    script.extend_from_slice(commands)?;
    Ok(script)
}

#[test]
fn a_record_that_was_flushed_is_found_by_the_next_call(rt: HostRuntime) -> Result<(), Fail> {
    let mut caller = Caller::new(rt.alloc(), 2 * IMAGE, 100)?;
    let put = script(rt.alloc(), b"mount\nput t 7 5\nflush t\nput t 8 6\n")?;
    assert_eq!(rt; caller.run(&put), 0);
    assert_eq!(rt; caller.said(), b"ok\nok\nok\nok\n".as_slice());
    assert_eq!(rt; (caller.image_len, caller.line), (IMAGE, 0));
    let scan = script(rt.alloc(), b"mount\nscan t 0 9\n")?;
    assert_eq!(rt; caller.run(&scan), 0);
    assert_eq!(rt; caller.said(), b"ok\nrow 7 5\nend 1\n".as_slice());
    Ok(())
}

#[test]
fn the_line_that_is_no_command_is_named(rt: HostRuntime) -> Result<(), Fail> {
    let mut caller = Caller::new(rt.alloc(), IMAGE, 100)?;
    let script = script(rt.alloc(), b"mount\nflush t\nput t\n")?;
    assert_eq!(rt; caller.run(&script), 2);
    assert_eq!(rt; (caller.said(), caller.line), (&b"ok\nok\n"[..], 5));
    assert_eq!(rt;
        caller.run(b"device 64 2\ntable t 4 u8 2 0 0 0 0 1 0 0\n"),
        6
    );
    assert_eq!(rt; (caller.said(), caller.line), (&b""[..], 2));
    Ok(())
}

#[test]
fn an_image_or_replies_without_room_are_told(rt: HostRuntime) -> Result<(), Fail> {
    let script = script(rt.alloc(), b"mount\nflush t\n")?;
    let mut small = Caller::new(rt.alloc(), IMAGE - 1, 100)?;
    assert_eq!(rt; small.run(&script), 5);
    assert_eq!(rt; small.said(), b"".as_slice());
    let mut silent = Caller::new(rt.alloc(), IMAGE, 5)?;
    assert_eq!(rt; silent.run(&script), 4);
    assert_eq!(rt; silent.said(), b"ok\n".as_slice());
    let mut longer = Caller::new(rt.alloc(), IMAGE, 100)?;
    longer.image_len = IMAGE + 1;
    assert_eq!(rt; longer.run(&script), 33);
    assert_eq!(rt;
        (longer.image_len, longer.replies_len, longer.line),
        (IMAGE + 1, 0, 99)
    );
    Ok(())
}
