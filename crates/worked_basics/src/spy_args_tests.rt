//! What words ask for.

use semantics::{Ask, Command};
use spy_args::{Request, request_in};
use std::test::Fail;

#[test]
fn words_ask_for_a_command(rt: HostRuntime) -> Result<(), Fail> {
    let alloc = rt.alloc();
    let ask = Ask {
        task: 2,
        req: 0,
        point: 18_446_744_073_709_551_615,
        field: 4_294_967_295,
    };
    let cases: [(&[&str], Option<Request>); 7] = [
        (&["check"], Some(Request::Judge(Command::Check))),
        (&["--", "ordered"], Some(Request::Judge(Command::Ordered))),
        (&["--size=4", "demo"], Some(Request::Demo { size: 4 })),
        (&["demo", "--size", "501"], None),
        (
            &[
                "why",
                "--task=2",
                "--req=0",
                "--point=18446744073709551615",
                "--field=4294967295",
            ],
            Some(Request::Judge(Command::Why(ask))),
        ),
        (&["why", "--task=2", "--req=0", "--point=0"], None),
        (&[], None),
    ];
    for (texts, request) in cases {
        let mut words = Vec::new(alloc);
        for text in texts {
            words.push(String::from_str(alloc, text)?)?;
        }
        assert!(rt; request_in(alloc, &words).ok() == Some(request));
    }
    Ok(())
}
