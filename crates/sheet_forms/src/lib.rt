// Forms of sheets: a sheet is the sheet of its entries, and lists them; there is no code here, so that an edit of a sheet's code stays cheap to check.
#![tactic(auto)]
