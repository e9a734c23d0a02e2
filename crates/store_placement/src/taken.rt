//! Which addresses of the store are taken.
ghost use Rattle.std.specs.Prelude.{◌≡◌, ◌<◌, ◌||◌, ℕ, Some, true, length};
ghost use Rattle.store_placement.specs.First.{NeverTwo};
ghost use Rattle.store_placement.specs.Forced.{same_address};
ghost use Rattle.store_placement.specs.Taken.{AreTaken, is_marked, may_collide, share_address};

/// Marks the address, where it is of the store.
fn take_address(taken: &mut [bool; 512], address: Option<u16>)
    ensures { (a : ℕ) → a < 512 → is_marked taken.new a ≡ (is_marked taken.old a || same_address address (Some a)) }
{
    if let Some(a) = address {
        if a < 512 {
            taken[a as usize] = true;
        }
    }
}

/// For each address of the store whether a statement is placed there.
pub fn taken_addresses(placed: &[Option<u16>]) -> [bool; 512]
    ensures { AreTaken placed.now result }
{
    let mut taken = [false; 512];
    for place in placed {
        take_address(&mut taken, *place);
    }
    taken
}

/// Whether the address may be that of a second statement: it is taken, or outside of the store.
fn may_collide(taken: &[bool; 512], address: Option<u16>) -> bool
    ensures { result ≡ may_collide taken.now address }
{
    match address {
        None => false,
        Some(a) => a >= 512 || taken[a as usize],
    }
}

/// True where no two statements are forced to one address, and all addresses are of the store.
pub fn are_apart(addresses: &[Option<u16>]) -> bool
    ensures { result ≡ true → NeverTwo (share_address addresses.now) (length addresses.now) }
{
    let mut taken = [false; 512];
    for address in addresses {
        if may_collide(&taken, *address) {
            return false;
        }
        take_address(&mut taken, *address);
    }
    true
}
