//! The page for people of a server's status pages: HTML with a script that fetches `/status.json` each second, and nothing from
//! elsewhere.
#![tactic(auto)]

/// What a browser may load and run for the page (Content Security Policy Level 3): its own style and script, by their hashes, and
/// figures of the same server. No other page shows it in a frame.
pub const POLICY: &str =
    "default-src 'none'; script-src 'sha256-pnPH8rJDrAMyV/KSVckd47h5qOS7DNSxWoyzSm7ADpE='; style-src 'sha256-GmloykLtifMtsvL4NFkbFDtv+KkByrSjhs6Am46AoWA='; connect-src 'self'; base-uri 'none'; form-action 'none'; frame-ancestors 'none'";

/// The page, as UTF-8.
pub const PAGE: &str = r#"<!doctype html>
<html lang="en">
<meta charset="utf-8">
<meta name="viewport" content="width=device-width, initial-scale=1">
<title>Vasklun</title>
<style>
:root { color-scheme: light dark; --back: #fff; --text: #1b1f24; --dim: #57606a; --line: #d0d7de; --bad: #b3261e; --good: #1a7f37; --mark: #0969da }
@media (prefers-color-scheme: dark) { :root { --back: #0d1117; --text: #e6edf3; --dim: #9aa4af; --line: #30363d; --bad: #ff7b72; --good: #3fb950; --mark: #58a6ff } }
* { box-sizing: border-box }
body { margin: 0 auto; max-width: 80rem; padding: 1rem; background: var(--back); color: var(--text); font: 1rem/1.5 system-ui, sans-serif }
header { display: flex; flex-wrap: wrap; gap: .25rem 1rem; align-items: baseline; margin-bottom: 1rem }
h1 { margin: 0; font-size: 1.5rem }
#state { margin: 0; color: var(--dim) }
#state.bad, .bad { color: var(--bad); font-weight: 600 }
.wide { overflow-x: auto }
table { width: 100%; border-collapse: collapse; font-variant-numeric: tabular-nums }
th, td { padding: .4rem .6rem; border-bottom: 1px solid var(--line); text-align: right; white-space: nowrap }
th:first-child, td:first-child { text-align: left }
th { color: var(--dim); font-weight: 500 }
.name { font-weight: 600; max-width: 22rem; overflow: hidden; text-overflow: ellipsis }
.name button { all: unset; cursor: pointer; max-width: 100%; overflow: hidden; text-overflow: ellipsis; vertical-align: bottom }
.name button:focus-visible { outline: 2px solid var(--mark); outline-offset: 2px }
.live { color: var(--good) }
.dim, .inner th { color: var(--dim) }
.inner > td { padding: 0 0 .6rem 1.5rem; text-align: left; white-space: normal }
.inner p { overflow-wrap: anywhere }
.old { opacity: .5 }
svg { width: 7.5rem; height: 1.6rem; vertical-align: middle }
polyline { fill: none; stroke: var(--mark); stroke-width: 1.5; vector-effect: non-scaling-stroke }
pre { padding: .75rem; white-space: pre-wrap; overflow-wrap: break-word; border: 1px solid var(--line); border-radius: .4rem }
@media (max-width: 40rem) {
  th, td { padding: .4rem .3rem; font-size: .875rem }
  .name { max-width: 8rem }
  .inner > td { padding-left: .3rem }
  .inner table tr > :nth-child(2), .inner table tr > :nth-child(5) { display: none }
  #mounts > tbody > tr:first-child > td:nth-child(2) { white-space: normal }
  #mounts > thead > tr > th:nth-child(4), #mounts > tbody > tr:first-child > td:nth-child(4) { display: none }
  #mounts > thead > tr > th:nth-child(5), #mounts > thead > tr > th:nth-child(6) { display: none }
  #mounts > tbody > tr:first-child > td:nth-child(5), #mounts > tbody > tr:first-child > td:nth-child(6) { display: none }
}
@media (min-width: 110rem) { body { max-width: 120rem; font-size: 1.5rem } }
</style>
<header><h1>Vasklun</h1><p id="state" role="status">asks the relay</p></header>
<main>
<div class="wide"><table id="mounts" hidden><thead><tr><th>Mount<th>State<th>Players<th>Packets/s<th>Mbit/s<th>Last minute<th>Lost<th>Refused</tr></thead></table></div>
<section id="empty" hidden><p>No mount yet. Publish one, for example:</p><pre id="example"></pre></section>
</main>
<script>
"use strict";
const MINUTE = 60;
const seen = new Map();
const by = id => document.getElementById(id);
const make = (tag, parent, text, name) => {
  const it = document.createElement(tag);
  if (text !== undefined) it.textContent = text;
  if (name) it.className = name;
  if (parent) parent.append(it);
  return it;
};
const time = ms => {
  const s = Math.floor(ms / 1000);
  return s < 60 ? `${s} s` : s < 3600 ? `${Math.floor(s / 60)} min` : `${Math.floor(s / 3600)} h ${Math.floor(s / 60) % 60} min`;
};
const drawn = () => {
  const space = "http://www.w3.org/2000/svg", picture = document.createElementNS(space, "svg");
  picture.setAttribute("viewBox", "0 0 60 20");
  picture.setAttribute("preserveAspectRatio", "none");
  picture.append(document.createElementNS(space, "polyline"));
  return picture;
};
function row(mount) {
  const body = make("tbody"), line = make("tr", body), name = make("td", line, undefined, "name"), button = make("button", name, mount.name);
  button.setAttribute("aria-expanded", "false");
  button.title = mount.name;
  const it = { body, button, past: [], cells: [] };
  for (let place = 0; place < 7; place++) it.cells.push(make("td", line));
  it.cells[4].append(drawn());
  const more = make("tr", body, undefined, "inner");
  it.inner = make("td", more);
  it.inner.colSpan = 8;
  more.hidden = true;
  button.onclick = () => {
    more.hidden = !more.hidden;
    button.setAttribute("aria-expanded", String(!more.hidden));
  };
  by("mounts").append(body);
  return it;
}
function put(cell, text, name) {
  if (cell.textContent !== text) cell.textContent = text;
  cell.className = name || "";
}
function show(mount, all, now) {
  if (!seen.has(mount.name)) seen.set(mount.name, row(mount));
  const it = seen.get(mount.name), live = all.recorded.find(one => one.name === mount.name);
  const lost = mount.player_packets.lost, counts = mount.packets;
  const refused = counts.pinned + counts.too_long + counts.bad_rtp + counts.unknown_channel + counts.no_memory;
  it.past.push({ now, packets: counts.published, bytes: mount.bytes_in, lost, refused });
  while (it.past.length > MINUTE + 1) it.past.shift();
  const last = it.past[it.past.length - 2], first = it.past[0], here = it.past[it.past.length - 1];
  const seconds = last ? (now - last.now) / 1000 : 0;
  const a = seconds ? (here.packets - last.packets) / seconds : 0, b = seconds ? (here.bytes - last.bytes) * 8e-6 / seconds : 0;
  const silent = live && live.silence_ms > 2999;
  put(it.cells[0], !mount.live ? "ended" : silent ? `silent ${time(live.silence_ms)}` : "live", !mount.live ? "dim" : silent ? "bad" : "live");
  put(it.cells[1], String(mount.players));
  put(it.cells[2], a.toFixed(0));
  put(it.cells[3], b.toFixed(2));
  const rates = it.past.slice(1).map((at, place) => (at.bytes - it.past[place].bytes) / Math.max(1, at.now - it.past[place].now));
  const most = Math.max(...rates, 1e-9);
  it.cells[4].firstChild.firstChild.setAttribute("points", rates.map((rate, place) => `${60 - rates.length + place + 1},${19 - 18 * rate / most}`).join(" "));
  put(it.cells[5], String(lost), lost > first.lost ? "bad" : "");
  put(it.cells[6], String(refused), refused > first.refused ? "bad" : "");
  players(it, mount, live, all);
}
function tracks(it, mount, described) {
  const count = Math.max(described.length, ...mount.tracks.map(one => one.track + 1));
  for (let number = 0; number < count; number++) {
    const shown = described[number], counts = mount.tracks.find(one => one.track === number);
    const lost = counts && counts.missing + counts.restarts > 0;
    if (!shown && !lost) continue;
    const line = make("p", it.inner, undefined, lost && counts.missing ? "bad" : "dim");
    make("span", line, `Track ${number}: `);
    if (shown) {
      make("bdi", line, shown.media);
      make("span", line, ", format ");
      make("bdi", line, shown.format);
    }
    if (lost) make("span", line, `${shown ? "; " : ""}${counts.missing} packets lost before the relay, ${counts.late} late, ${counts.restarts} restarts of the numbers`);
    make("span", line, ".");
  }
}
function players(it, mount, live, all) {
  if (it.inner.parentNode.hidden) return;
  it.inner.replaceChildren();
  if (live) make("p", it.inner, `Publisher ${live.publisher}, for ${time(live.age_ms)}.`, "dim");
  tracks(it, mount, live ? live.tracks : []);
  const those = all.players.filter(one => one.mount === mount.name);
  if (!those.length) return void make("p", it.inner, "No player.", "dim");
  const table = make("table", it.inner), head = make("tr", table);
  for (const text of ["Player", "Seat", "For", "Sent", "Skipped", "Lost", "Behind"]) make("th", head, text);
  for (const one of those) {
    const line = make("tr", table);
    for (const text of [one.peer, one.seat, time(one.age_ms), one.sent, one.skipped]) make("td", line, String(text));
    make("td", line, String(one.lost), one.lost ? "bad" : "");
    make("td", line, String(one.behind));
  }
}
let looking = false;
async function look() {
  if (document.hidden || looking) return;
  looking = true;
  try {
    const answer = await fetch("status.json"), all = await answer.json(), now = performance.now();
    for (const mount of all.mounts) show(mount, all, now);
    for (const [name, it] of seen) if (!all.mounts.some(one => one.name === name)) { it.body.remove(); seen.delete(name); }
    by("mounts").hidden = !all.mounts.length;
    by("empty").hidden = all.mounts.length > 0;
    by("mounts").className = "";
    const live = all.mounts.filter(one => one.live).length, total = all.totals.player_packets.lost;
    put(by("state"), `${live} live, ${all.players.length} players, ${total} packets lost by players since the start`);
  } catch (error) {
    put(by("state"), "the relay doesn't answer", "bad");
    by("mounts").className = "old";
  }
  looking = false;
}
by("example").textContent = `ffmpeg -re -i film.mp4 -c copy -rtsp_transport tcp -f rtsp rtsp://${location.hostname}:8554/door`;
document.addEventListener("visibilitychange", look);
setInterval(look, 1000);
look();
</script>
</html>
"#;
