//! The entries of an order, as scenarios write them.
use gl_base::Entry;
use scenario_lines::Page;

/// Adds entries, each behind a blank: the vertex of an update by machine 0 whose ticket is its
/// place in the order, else
/// `ticket:machine:vertex`, and `ticket:restart`.
pub fn add_entries(page: &mut Page, entries: &[Entry]) {
    for (place, entry) in entries.iter().enumerate() {
        page.add(" ");
        add_entry(page, place as u64, entry);
    }
}

fn add_entry(page: &mut Page, place: u64, entry: &Entry) {
    match entry {
        Entry::Go {
            machine,
            vertex,
            ticket,
        } => {
            if machine.0 != 0 || *ticket != place {
                add_owner(page, *ticket, machine.0);
            }
            page.add_number(u64::from(vertex.0));
        }
        Entry::Restart { ticket } => {
            page.add_number(*ticket);
            page.add(":restart");
        }
    }
}

/// Adds the ticket and the machine of an update.
fn add_owner(page: &mut Page, ticket: u64, machine: u16) {
    page.add_number(ticket);
    page.add(":");
    page.add_number(u64::from(machine));
    page.add(":");
}
