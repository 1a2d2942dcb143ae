//! A shop: visitors have carts, which are dropped when a visitor hasn't come back for long.

ghost use Rattle.std.specs.Prelude.{◌≡◌, IfOk};

use anyhow::{Result, bail};
use generational_box::{Location, Storage, UnsyncStorage};
use session_table::{Entry, SessionTable};
use std::alloc::Global;

// How long a cart is kept.
const KEPT: u64 = 100;

// How many of each product are in the cart of each visitor.
type Carts<S> = SessionTable<String, String, u64, S>;

pub fn main(rt: &HostRuntime) -> Result<()> {
    let store = UnsyncStorage::new(rt.alloc(), 5);
    let mut carts = SessionTable::new(rt.alloc(), store);
    let served = serve(rt, rt.alloc(), &mut carts);
    let _ = carts.finish();
    served
}

fn serve<R: Print, S: Storage<u64>>(rt: &R, alloc: Global, carts: &mut Carts<S>) -> Result<()> {
    let pears = fill(alloc, carts)?;
    show(rt, carts, "ada")?;
    change(rt, alloc, carts)?;
    // A visitor signs in under a name, and keeps the cart.
    carts.rename("ada", "ada lovelace".to_string(alloc)?)?;
    show(rt, carts, "ada lovelace")?;
    expire(rt, alloc, carts, 130)?;
    pay(rt, carts, "ada lovelace", pears)
}

// Two visitors fill their carts. Returns the entry of the first one's pears.
fn fill<S: Storage<u64>>(alloc: Global, carts: &mut Carts<S>) -> Result<Entry<u64>> {
    let pears = more(alloc, carts, 10, "ada", "pear", 2)?;
    more(alloc, carts, 20, "bob", "quince", 1)?;
    more(alloc, carts, 50, "ada", "pear", 3)?;
    more(alloc, carts, 60, "ada", "plum", 12)?;
    Ok(pears)
}

fn change<R: Print, S: Storage<u64>>(rt: &R, alloc: Global, carts: &mut Carts<S>) -> Result<()> {
    println!(rt; "plums: {:?}", exactly(alloc, carts, "ada", "plum", 4)?)?;
    println!(rt; "figs: {:?}", exactly(alloc, carts, "ada", "fig", 1)?)?;
    println!(rt; "quinces taken back: {:?}", carts.remove("bob", "quince"))?;
    println!(rt; "quinces taken back: {:?}", carts.remove("bob", "quince"))?;
    Ok(())
}

// Starts a visitor's cart, or keeps it for longer.
fn visit<S: Storage<u64>>(
    alloc: Global,
    carts: &mut Carts<S>,
    now: u64,
    visitor: &str,
) -> Result<()> {
    if !carts.touch(visitor, now) {
        carts.login(visitor.to_string(alloc)?, now)?;
    }
    Ok(())
}

// Puts more of a product into a visitor's cart.
fn more<S: Storage<u64>>(
    alloc: Global,
    carts: &mut Carts<S>,
    now: u64,
    visitor: &str,
    product: &str,
    number: u64,
) -> Result<Entry<u64>> {
    visit(alloc, carts, now, visitor)?;
    let here = Location::new("shop.rt", 75, 16);
    let entry = carts.get_or_put(visitor, product.to_string(alloc)?, 0, here)?;
    carts.update(entry, |count: &mut u64| {
        *count = count.saturating_add(number);
    })?;
    Ok(entry)
}

// Sets how many of a product a visitor wants. Returns how many are in the cart then, and how many were
// before.
fn exactly<S: Storage<u64>>(
    alloc: Global,
    carts: &mut Carts<S>,
    visitor: &str,
    product: &str,
    number: u64,
) -> Result<(u64, Option<u64>)>
    ensures { IfOk result (λ counts. counts.0 ≡ number) }
{
    let here = Location::new("shop.rt", 94, 16);
    let (entry, before) = carts.upsert(visitor, product.to_string(alloc)?, number, here)?;
    Ok((*carts.get(entry)?, before))
}

fn show<R: Print, S: Storage<u64>>(rt: &R, carts: &Carts<S>, visitor: &str) -> Result<()> {
    let Some(session) = carts.session(visitor) else {
        bail!("{visitor} has no cart");
    };
    println!(rt; "{visitor}, last seen at {}", session.used_at())?;
    for (product, entry) in session.entries() {
        println!(rt; "  {product}: {}", carts.get(entry)?)?;
    }
    Ok(())
}

// Drops the carts of visitors who haven't come for long, and prints who they are.
fn expire<R: Print, S: Storage<u64>>(
    rt: &R,
    alloc: Global,
    carts: &mut Carts<S>,
    now: u64,
) -> Result<()> {
    let mut gone = Vec::with_capacity(alloc, carts.len())?;
    let ended = carts.expire_each(now.saturating_sub(KEPT), |visitor: String| {
        // There is room for each.
        let _ = gone.push(visitor);
    });
    for visitor in gone.iter() {
        println!(rt; "{visitor} left a cart")?;
    }
    println!(rt; "{ended} ended, {} left", carts.len())?;
    Ok(())
}

// Pays for a cart, which drops it with all its entries.
fn pay<R: Print, S: Storage<u64>>(
    rt: &R,
    carts: &mut Carts<S>,
    visitor: &str,
    pears: Entry<u64>,
) -> Result<()> {
    println!(rt; "pears: {}", carts.get(pears)?)?;
    println!(rt; "plums: {:?}", carts.get_at(visitor, "plum"))?;
    println!(rt; "paid: {}", carts.logout(visitor))?;
    println!(rt; "plums: {:?}", carts.get_at(visitor, "plum"))?;
    if let Err(stale) = carts.get(pears) {
        println!(rt; "{stale}")?;
    }
    Ok(())
}
