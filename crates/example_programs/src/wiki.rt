//! A wiki: pages in a tree, each with blocks of text, of which some are on several pages.

ghost use Rattle.std.specs.Prelude.{◌≡◌, OnOk};
ghost use Rattle.document_tree.specs.Documents.{Place, part_in, shown_in, with_new_content};

use anyhow::Result;
use document_tree::{Document, Place};
use generational_box::{Location, Storage, UnsyncStorage};
use scene_tree::{Node, SceneTree, Spot};
use std::alloc::Global;

// How many places a page shows at most.
const MOST: usize = 100;

/// A page.
#[derive(Clone, Copy)]
struct Page {
    // The place of its title: the text is below that.
    title: Place,
}

/// The pages, and the blocks of text, with those below them.
#[derive(Drop)]
struct Wiki<P: Storage<Page>, B: Storage<u32>> {
    pages: SceneTree<Page, P>,
    blocks: Document<String, B>,
    alloc: Global,
}

pub fn main(rt: &HostRuntime) -> Result<()> {
    let alloc = rt.alloc();
    let mut wiki = Wiki {
        pages: SceneTree::new(alloc, UnsyncStorage::new(alloc, 6)),
        blocks: Document::new(alloc, UnsyncStorage::new(alloc, 7)),
        alloc,
    };
    write(rt, &mut wiki)
}

fn write<R: Print, P: Storage<Page>, B: Storage<u32>>(rt: &R, wiki: &mut Wiki<P, B>) -> Result<()> {
    let fruit = wiki.add_page(None, "Fruit")?;
    let pears = wiki.add_page(Some(fruit), "Pears")?;
    let plums = wiki.add_page(Some(fruit), "Plums")?;
    let note = fill(wiki, pears, plums)?;
    show(rt, wiki, pears)?;
    // One block is changed, on each page that has it.
    wiki.rewrite(note, "Wash and dry.".to_string(wiki.alloc)?)?;
    show(rt, wiki, plums)?;
    add_quinces(rt, wiki, plums)?;
    contents(rt, wiki, fruit)?;
    wiki.remove_below(note, 0)?;
    wiki.remove_page(pears)?;
    show(rt, wiki, plums)?;
    show_stale(rt, wiki, pears)
}

// Fills two pages, which have a block in common with another below it. Returns that block's first place.
fn fill<P: Storage<Page>, B: Storage<u32>>(
    wiki: &mut Wiki<P, B>,
    pears: Node<Page>,
    plums: Node<Page>,
) -> Result<Place> {
    let note = wiki.add_block(pears, "Wash before you eat.")?;
    wiki.add_block(pears, "Pears are green.")?;
    wiki.share_block(plums, note)?;
    wiki.add_below(note, "Warm water does.")?;
    Ok(note)
}

// Adds a page below that of plums, and moves it before that.
fn add_quinces<R: Print, P: Storage<Page>, B: Storage<u32>>(
    rt: &R,
    wiki: &mut Wiki<P, B>,
    plums: Node<Page>,
) -> Result<()> {
    let quinces = wiki.add_page(Some(plums), "Quinces")?;
    wiki.pages.move_at(quinces, Spot::Before(plums))?;
    show(rt, wiki, quinces)
}

fn show_stale<R: Print, P: Storage<Page>, B: Storage<u32>>(
    rt: &R,
    wiki: &Wiki<P, B>,
    page: Node<Page>,
) -> Result<()> {
    if let Err(stale) = wiki.pages.get(page) {
        println!(rt; "{stale}")?;
    }
    Ok(())
}

impl<P: Storage<Page>, B: Storage<u32>> Wiki<P, B> {
    // Adds a page below another, as its last.
    fn add_page(&mut self, above: Option<Node<Page>>, title: &str) -> Result<Node<Page>> {
        let here = Location::new("wiki.rt", 95, 20);
        let title = self.blocks.add(title.to_string(self.alloc)?, here)?;
        let page = Page { title };
        match above {
            Some(above) => Ok(self.pages.add_child(above, page, here)?),
            None => Ok(self.pages.add_root(page, here)?),
        }
    }

    // Adds a block at the end of a page.
    fn add_block(&mut self, page: Node<Page>, text: &str) -> Result<Place> {
        let title = self.pages.get(page)?.title;
        self.add_below(title, text)
    }

    // Adds a block below a block.
    fn add_below(&mut self, block: Place, text: &str) -> Result<Place> {
        let here = Location::new("wiki.rt", 112, 20);
        let added = self.blocks.add(text.to_string(self.alloc)?, here)?;
        self.blocks.append(block, added)?;
        Ok(added)
    }

    // Shows a block at the end of another page too, at a place of its own.
    fn share_block(&mut self, page: Node<Page>, block: Place) -> Result<Place> {
        let place = self.blocks.repeat(block)?;
        self.blocks.append(self.pages.get(page)?.title, place)?;
        Ok(place)
    }

    // Removes a block that is below another, from each page.
    fn remove_below(&mut self, block: Place, index: usize) -> Result<()> {
        let removed = self.blocks.take_child(block, index)?;
        self.blocks.remove(removed)?;
        Ok(())
    }

    // Removes a page without others below it, with its blocks. Those that are on other pages too stay there.
    fn remove_page(&mut self, page: Node<Page>) -> Result<()> {
        let Page { title } = self.pages.take(page)?;
        let blocks = self.blocks.children(title)?.to_vec(self.alloc)?;
        self.blocks.remove(title)?;
        for block in blocks {
            self.blocks.remove(block)?;
        }
        Ok(())
    }

    // Replaces the text of a block: at each of its places, on whichever page.
    fn rewrite(&mut self, block: Place, text: String) -> Result<()>
        ensures { OnOk result ((other : Place) →
            part_in self.old.blocks other ≡ part_in self.old.blocks block →
            shown_in self.new.blocks other ≡ with_new_content text (shown_in self.old.blocks block)) }
    {
        self.blocks.set(block, text)?;
        Ok(())
    }

    fn title(&self, page: Node<Page>) -> Result<&String> {
        Ok(self.blocks.get(self.pages.get(page)?.title)?)
    }
}

// Prints a page: where it is among the pages, and its blocks.
fn show<R: Print, P: Storage<Page>, B: Storage<u32>>(
    rt: &R,
    wiki: &Wiki<P, B>,
    page: Node<Page>,
) -> Result<()> {
    for above in wiki.pages.ancestors(page)? {
        show_title(rt, wiki, "in", Some(above))?;
    }
    show_title(rt, wiki, "after", wiki.pages.previous_sibling(page)?)?;
    show_title(rt, wiki, "before", wiki.pages.next_sibling(page)?)?;
    show_blocks(rt, wiki, wiki.pages.get(page)?.title)
}

// Prints the title of a page, if there is one, after a word.
fn show_title<R: Print, P: Storage<Page>, B: Storage<u32>>(
    rt: &R,
    wiki: &Wiki<P, B>,
    word: &str,
    page: Option<Node<Page>>,
) -> Result<()> {
    if let Some(page) = page {
        println!(rt; "{word} {}", wiki.title(page)?)?;
    }
    Ok(())
}

// Prints a title, and the blocks below it.
fn show_blocks<R: Print, P: Storage<Page>, B: Storage<u32>>(
    rt: &R,
    wiki: &Wiki<P, B>,
    title: Place,
) -> Result<()> {
    for (depth, place) in wiki.blocks.outline_with_depth(title, MOST)? {
        println!(rt;
            "{}{}",
            "  ".repeat(wiki.alloc, depth)?,
            wiki.blocks.get(place)?
        )?;
    }
    Ok(())
}

// Prints the titles of a page and of all below it.
fn contents<R: Print, P: Storage<Page>, B: Storage<u32>>(
    rt: &R,
    wiki: &Wiki<P, B>,
    page: Node<Page>,
) -> Result<()> {
    for (depth, page) in wiki.pages.outline(page, wiki.pages.len())? {
        println!(rt; "{depth} {}", wiki.title(page)?)?;
    }
    Ok(())
}
