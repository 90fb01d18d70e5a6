//! Tests of what stands below the languages: pages of items, maps of pages, the files of an area, and texts
//! and code in them. They show what no clause says: that calls succeed, values worked out by hand, damage
//! at each kind of place, areas that are full, and each read and each write that fails.
#![tactic(auto)]

#[cfg(test)]
mod broken_areas;
#[cfg(test)]
mod code_files;
#[cfg(test)]
mod failing_areas;
#[cfg(test)]
mod failing_texts;
#[cfg(test)]
mod file_calls;
#[cfg(test)]
mod files;
#[cfg(test)]
mod full_areas;
#[cfg(test)]
mod made_area;
#[cfg(test)]
mod made_older;
#[cfg(test)]
mod migrations;
#[cfg(test)]
mod packed_pages;
#[cfg(test)]
mod page_maps;
#[cfg(test)]
mod random_changes;
#[cfg(test)]
mod text_calls;
#[cfg(test)]
mod texts;
