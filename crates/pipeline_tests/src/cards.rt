use card_lines::*;
use solo_base::NoMemory;
use std::alloc::Global;

#[test]
fn cards_are_printed_in_lines(rt: HostRuntime) -> Result<(), NoMemory> {
    let alloc: Global = rt.alloc();
    let mut cards = Vec::new(alloc);
    let mut card = [b'x'; 80];
    card[0] = b'*';
    card[1] = b'*';
    card[79] = b'*';
    cards.push(card)?;
    card[0] = b'*';
    cards.push(card)?;
    cards.push([b'*'; 80])?;
    let came = print_cards(&rt, alloc, cards);
    assert!(rt; came.ended.is_ok());
    assert!(rt; came.items.len() == 2);
    assert!(rt; came.items[0][0] == b'^');
    assert!(rt; came.items[0][1] == b'x');
    assert!(rt; came.items[0][78] == b'*');
    assert!(rt; came.items[0][79] == b' ');
    assert!(rt; came.items[0][80] == b'^');
    assert!(rt; came.items[1][124] == b' ');
    Ok(())
}
