//! The generated input and summaries.

use elan_demo::{Summary, demo_input, summary, summary_text};
use elan_meaning::{Cause, Item};
use std::test::Fail;

#[test]
fn the_input_for_two_has_two_rules_that_count(rt: HostRuntime) -> Result<(), Fail> {
    let text = demo_input(rt.alloc(), 2)?;
    let wanted = b"module demo
import global int; end
operators global
sum(@) : (int) int;
end
rules for int
n : int;
global
[] sum(0) => 0 end
[] sum(n) => n + sum(n - 1) if n > 0 end
[r] n => n + sum(1) end
[r] n => n + sum(2) end
end
end
LPL demo description
query of sort int
result of sort int
import demo
start with (r;r) query
end
0 end
";
    assert_eq!(rt; text.as_slice(), wanted.as_slice());
    Ok(())
}

#[test]
fn a_summary_counts_items_marks_and_bytes(rt: HostRuntime) -> Result<(), Fail> {
    let alloc = rt.alloc();
    let items = [Item::Mark(Cause::Steps), Item::Mark(Cause::Depth)];
    let size = summary(
        items.as_slice(),
        b"[1] out of steps\n[2] too deep\n[] end\n",
    );
    assert_eq!(rt;
        size,
        Summary {
            items: 2,
            marks: 2,
            bytes: 37
        }
    );
    let text = summary_text(alloc, &size)?;
    assert_eq!(rt; text.as_slice(), b"items 2\nmarks 2\nbytes 37\n".as_slice());
    let large = Summary {
        items: 1000,
        marks: 0,
        bytes: 23913,
    };
    let text = summary_text(alloc, &large)?;
    assert_eq!(rt;
        text.as_slice(),
        b"items 1000\nmarks 0\nbytes 23913\n".as_slice()
    );
    Ok(())
}
