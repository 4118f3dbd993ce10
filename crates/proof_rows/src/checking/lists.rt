// Lists of the numbers of lines.
use nal_term::ListError;
use proof_check::LineList;

fn is_filled(list: &mut LineList) -> bool {
    for item in 1..257 {
        if list.push(item).is_err() {
            return false;
        }
    }
    matches!(list.push(300), Err(ListError::Bound))
        && list.count() == 256
        && list.get(255) == Some(&256)
        && list.get(256).is_none()
}

// A number may not stand twice.
fn holds_one(list: &mut LineList) -> bool {
    list.push(2).is_ok()
        && matches!(list.push(2), Err(ListError::Bound))
        && list.as_slice() == [2].as_slice()
}

#[test]
fn lists(rt: HostRuntime) {
    let mut list = LineList::new(rt.alloc());
    assert!(rt; is_filled(&mut list));
    let mut short = LineList::new(rt.alloc());
    assert!(rt; holds_one(&mut short));
}
