use script_lang::{ScriptFaultKind, print_script, read_script};
use std::alloc::Global;

// A script with each row of the language that the first calls of a client want.
const STORED: &str = "modify a\n\
    params a single-primary preserve rib-and-fib-ack\n\
    expect a params-ok\n\
    elect a 10\n\
    expect a elected 10\n\
    add a 1 DEFAULT next-hop 1 ip=192.0.2.1\n\
    add a 2 DEFAULT next-hop 2 ip=192.0.2.2\n\
    add a 3 DEFAULT group 2 hops=2:1\n\
    add a 4 DEFAULT group 1 hops=1:1 backup=2\n\
    add a 5 DEFAULT ipv4 198.51.100.0/24 group=1\n\
    add a 6 DEFAULT ipv4 198.51.100.128/25 group=1\n\
    add a 7 DEFAULT ipv4 203.0.113.0/24 group=2\n\
    add a 8 DEFAULT ipv6 2001:db8::/32 group=1\n\
    add a 9 DEFAULT mpls 100 group=1\n\
    expect a 5 rib-programmed\n\
    expect a 5 fib-programmed\n\
    expect a 9 fib-programmed\n\
    get g * all\n\
    expect g entries 9\n\
    expect g end OK\n\
    flush f id 10 *\n\
    expect f flushed ok\n\
    expect f end OK\n\
    finish a\n\
    expect a end OK";

const ALL_OPTIONS: &str = "modify a\n\
    add a 1 D next-hop 1 ip=1 mac=x interface=e subinterface=3 ipip=a,b,c push=1,2 by none";

const GREATEST_ID: &str =
    "modify a\ndelete a 1 D mpls 7 by 340282366920938463463374607431768211455";

fn prints(alloc: Global, text: &str, printed: &str) -> bool {
    match read_script(alloc, text.as_bytes()) {
        Err(_) => false,
        Ok(script) => {
            match print_script(alloc, &script) {
                Err(_) => false,
                Ok(out) => out.as_str() == printed,
            }
        }
    }
}

fn fails(alloc: Global, text: &[u8], line: u32, kind: ScriptFaultKind) -> bool {
    match read_script(alloc, text) {
        Ok(_) => false,
        Err(fault) => fault.line == line && fault.kind == kind,
    }
}

#[test]
fn scripts_are_printed_as_read(rt: HostRuntime) {
    let alloc = rt.alloc();
    assert!(rt; prints(alloc, STORED, STORED));
    assert!(rt;
        prints(
            alloc,
            "# x\n\n  modify   a \n   \nfinish a\n\n",
            "\n\nmodify a\n\nfinish a"
        )
    );
    assert!(rt; prints(alloc, "", ""));
    assert!(rt; prints(alloc, ALL_OPTIONS, ALL_OPTIONS));
    assert!(rt; prints(alloc, GREATEST_ID, GREATEST_ID));
}

#[test]
fn first_fault_is_told(rt: HostRuntime) {
    let alloc = rt.alloc();
    assert!(rt; fails(alloc, b"modify a\njump a", 2, ScriptFaultKind::UnknownWord));
    assert!(rt;
        fails(
            alloc,
            b"modify a\nelect a 340282366920938463463374607431768211456",
            2,
            ScriptFaultKind::BadNumber
        )
    );
    assert!(rt;
        fails(
            alloc,
            b"modify a\nadd a 18446744073709551616 D mpls 7 group=1",
            2,
            ScriptFaultKind::BadNumber
        )
    );
    assert!(rt;
        fails(
            alloc,
            b"modify a\nget a * all",
            2,
            ScriptFaultKind::NameTaken
        )
    );
    assert!(rt;
        fails(
            alloc,
            b"modify a\nfinish b",
            2,
            ScriptFaultKind::UnknownCall
        )
    );
    assert!(rt; fails(alloc, b"modify a\n\xff", 2, ScriptFaultKind::NotUtf8));
}

#[test]
fn bad_shape_is_told(rt: HostRuntime) {
    let alloc = rt.alloc();
    assert!(rt; fails(alloc, b"modify a\nelect a 01", 2, ScriptFaultKind::BadShape));
    assert!(rt; fails(alloc, b"modify a\nfinish", 2, ScriptFaultKind::BadShape));
    assert!(rt;
        fails(
            alloc,
            b"modify a\nadd a 1 D next-hop 1 mac=x ip=1",
            2,
            ScriptFaultKind::BadShape
        )
    );
    assert!(rt;
        fails(
            alloc,
            b"modify a\nadd a 1 D next-hop 1 push=1,",
            2,
            ScriptFaultKind::BadShape
        )
    );
    assert!(rt;
        fails(
            alloc,
            b"modify a\nadd a 1 D next-hop 1 ipip=,b",
            2,
            ScriptFaultKind::BadShape
        )
    );
    assert!(rt;
        fails(
            alloc,
            b"modify a\nadd a 1 D ipv4 x",
            2,
            ScriptFaultKind::BadShape
        )
    );
    assert!(rt;
        fails(
            alloc,
            b"modify a\ndelete a 1 D ipv4 x group=1",
            2,
            ScriptFaultKind::BadShape
        )
    );
    assert!(rt;
        fails(
            alloc,
            b"modify a\nexpect a end NO",
            2,
            ScriptFaultKind::BadShape
        )
    );
}
